//! Desks of one shared environment, of which one thread goes from one to another.
use crate::calls::step;
use crate::desk_calls::{
    assert_block_untold, assert_served, assert_shut, end, enter, find_nothing, idle, idle_at_once,
    leave, log_of_three, log_of_two, open_three, open_two, serve_woken, take,
};
use crate::scripts::{closing, first, flushing, will};
use crate::texts::assert_log;
use env_crew::{Desk, Served};
use std::test::Fail;
use task_base::Scope;
use task_body::Act;

#[test]
fn three_desks_by_turns(rt: HostRuntime) -> Result<(), Fail> {
    let script = will(rt.alloc())?;
    let (shared, first, one, two) = open_three(rt.alloc(), script)?;
    let mut driver = shared.desk(first);
    let mut worker = shared.desk(one);
    let mut other = shared.desk(two);
    driver.post(&rt, 0, 0, 0);
    driver.post(&rt, 1, 0, 0);
    let mut long = take(&rt, &mut worker, 0);
    step(&rt, &mut long, Act::Enter(Scope::Will));
    enter(&rt, &mut worker, Scope::Will);
    let mut short = take(&rt, &mut other, 1);
    step(&rt, &mut short, Act::Did(1));
    end(&rt, &mut other, 1, short, 2);
    step(&rt, &mut long, Act::Did(1));
    step(&rt, &mut long, Act::Leave);
    leave(&rt, &mut worker);
    end(&rt, &mut worker, 0, long, 1);
    assert!(rt; driver.try_idle(&rt).is_ok());
    let first = driver.into_seat();
    let one = worker.into_seat();
    let two = other.into_seat();
    let log = log_of_three(rt.alloc(), shared, first, one, two)?;
    assert_log(
        rt.alloc(),
        &log,
        "0 0 post 0 0 0 ok\n1 0 post 1 0 0 ok\n2 1 take 0 0 0\n3 1 block 0 will\n\
        4 2 take 1 0 0\n5 2 end 1 2\n6 1 unblock 0\n7 1 end 0 1\n8 0 idle\n",
    )
}

#[test]
fn serve_answers_as_its_take(rt: HostRuntime) -> Result<(), Fail> {
    let script = first(rt.alloc())?;
    let (shared, first, second) = open_two(rt.alloc(), script)?;
    let mut driver = shared.desk(first);
    let mut worker = shared.desk(second);
    assert_served(&rt, &mut worker, Served::Nothing);
    assert!(rt; driver.post(&rt, 0, 0, 0));
    assert_served(&rt, &mut worker, Served::Worked);
    assert_served(&rt, &mut worker, Served::Nothing);
    assert!(rt; driver.try_idle(&rt).is_ok());
    assert_served(&rt, &mut worker, Served::Over);
    let first = driver.into_seat();
    let second = worker.into_seat();
    let log = log_of_two(rt.alloc(), shared, first, second)?;
    assert_log(
        rt.alloc(),
        &log,
        "0 0 post 0 0 0 ok\n1 1 take 0 0 0\n2 1 end 0 5\n3 0 idle\n",
    )
}

#[test]
fn shutdown_is_seen_without_the_turn(rt: HostRuntime) -> Result<(), Fail> {
    let script = closing(rt.alloc())?;
    let (shared, first, second) = open_two(rt.alloc(), script)?;
    let mut driver = shared.desk(first);
    let mut worker = shared.desk(second);
    assert!(rt; driver.post(&rt, 0, 0, 5));
    assert_shut(&rt, &mut worker, None);
    assert_block_untold(&rt, &mut worker);
    driver.start_shutdown(&rt);
    assert_shut(&rt, &mut worker, Some(1));
    assert_block_untold(&rt, &mut worker);
    let first = driver.into_seat();
    let second = worker.into_seat();
    let log = log_of_two(rt.alloc(), shared, first, second)?;
    assert_log(rt.alloc(), &log, "0 0 post 0 0 5 ok\n1 0 shutdown\n")
}

// Where nobody wakes whom it should, these two don't end.

#[test]
fn post_wakes_the_worker_that_rests(rt: HostRuntime) -> Result<(), Fail> {
    let script = first(rt.alloc())?;
    let (shared, first, second) = open_two(rt.alloc(), script)?;
    let mut driver = shared.desk(first);
    let mut worker = shared.desk(second);
    find_nothing(&rt, &mut worker);
    driver.post(&rt, 0, 0, 0);
    serve_woken(&rt, &mut worker);
    idle_at_once(&rt, &mut driver);
    let first = driver.into_seat();
    let second = worker.into_seat();
    let log = log_of_two(rt.alloc(), shared, first, second)?;
    assert_log(
        rt.alloc(),
        &log,
        "0 0 post 0 0 0 ok\n1 1 take 0 0 0\n2 1 end 0 5\n3 0 idle\n",
    )
}

#[test]
fn each_seat_is_woken_while_the_other_rests(rt: HostRuntime) -> Result<(), Fail> {
    let script = flushing(rt.alloc())?;
    let (shared, first, second) = open_two(rt.alloc(), script)?;
    let mut driver = shared.desk(first);
    let mut worker = shared.desk(second);
    driver.post(&rt, 0, 0, 0);
    assert_served(&rt, &mut worker, Served::Worked);
    find_nothing(&rt, &mut worker);
    idle_at_once(&rt, &mut driver);
    driver.post(&rt, 1, 0, 0);
    serve_woken(&rt, &mut worker);
    driver.post(&rt, 2, 0, 0);
    assert_served(&rt, &mut worker, Served::Worked);
    idle(&rt, &mut driver);
    let first = driver.into_seat();
    let second = worker.into_seat();
    let log = log_of_two(rt.alloc(), shared, first, second)?;
    assert_log(
        rt.alloc(),
        &log,
        "0 0 post 0 0 0 ok\n1 1 take 0 0 0\n2 1 end 0 5\n3 0 idle\n4 0 post 1 0 0 ok\n5 1 take 1 0 5\n\
        6 1 end 1 10\n7 0 post 2 0 0 ok\n8 1 take 2 0 10\n9 1 end 2 15\n10 0 idle\n",
    )
}
