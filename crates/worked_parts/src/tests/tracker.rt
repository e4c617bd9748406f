//! What shutdown waits for.
use shutdown_phase::StillBlocked;
use task_tracker::Tracker;
use task_traits::{Behaviour, Phase, Priority};

#[test]
fn running_skip_task_is_waited_for(rt: HostRuntime) {
    let mut tracker = Tracker::new();
    assert!(rt; tracker.accept(Behaviour::SkipOnShutdown));
    assert_eq!(rt; tracker.blockers(), 0);
    assert!(rt; tracker.may_run(Priority::UserVisible, Behaviour::SkipOnShutdown));
    tracker.started(Behaviour::SkipOnShutdown);
    tracker.start_shutdown();
    assert!(rt; !tracker.may_run(Priority::UserVisible, Behaviour::SkipOnShutdown));
    assert_eq!(rt; tracker.try_done(), Err(StillBlocked { count: 1 }));
    tracker.ended(Behaviour::SkipOnShutdown);
    assert_eq!(rt; tracker.try_done(), Ok(()));
    assert_eq!(rt; tracker.phase(), Phase::Done);
}
