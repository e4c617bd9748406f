ghost use Rattle.std.specs.Prelude.{List, []};
ghost use Rattle.task_base.specs.Plan.{Plan};
ghost use Rattle.live_roster.specs.Histories.{AreDoneTo, AreKept, Done};
ghost use Rattle.live_roster.specs.StandsFor.{StandsFor};
ghost use Rattle.live_roster.specs.declared.roster.LiveRoster.{LiveRoster};

/// No wake is lost, whatever calls are made and whoever rests, in whatever order. After each: where what a seat rests for has
/// come, such a seat was woken and hasn't held the lock since, or is about to be woken by who held it last; the same holds of
/// what only one seat may have; and where shutdown is done nobody rests. Nothing is claimed of the sleep itself, nor of when a
/// seat that was woken runs.
pub fn no_wake_is_lost()
    ensures { (plan : Plan) (roster : LiveRoster) (done : List Done) → StandsFor plan [] roster → AreDoneTo roster done
        → AreKept plan [] roster done }
{}
