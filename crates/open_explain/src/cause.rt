ghost use Rattle.std.specs.Prelude.{◌<◌, ◌≤◌, List, length};
ghost use Rattle.task_base.specs.Plan.{Plan, opened};
ghost use Rattle.task_base.specs.declared.entry.Entry.{Entry as AnyEntry};
ghost use Rattle.live_core.specs.Answers.{LacksFor};
ghost use Rattle.live_core.specs.StandsFor.{StandsFor};
ghost use Rattle.live_core.specs.declared.unmade.Unmade.{Unmade as AnyUnmade};
ghost use Rattle.open_check.specs.Following.{IsAgainst, IsOwnCall, IsUnmade, Stays};
ghost use Rattle.open_explain.specs.Told.{Bars, BarsCall, IsInPlace};

use crate::inside::inside_of;
use crate::parts::part_of;
use live_core::{Call, LiveCore, Unmade};
use next_entry::{OpenCause, bar_of, edge_of};
use open_check::Against;
use task_base::{Entry, Kind, NotYet, Script};

/// Why the entry may not come after the past, against which this is.
pub(crate) fn cause_of(
    script: &Script,
    live: &LiveCore,
    past: &[Entry],
    entry: &Entry,
    against: Against,
) -> OpenCause
    requires few { length past.now < u32.MAX }
    requires workers { script.now.workers < u32.MAX }
    requires is { IsAgainst (opened script.now) past.now entry.now against }
    requires stays { Stays (opened script.now) past.now live.now against }
    ensures { Bars result (opened script.now) past.now entry.now }
{
    if entry.seat > script.workers {
        return OpenCause::NoSeat;
    }
    match against {
        Against::OtherSeat => OpenCause::OnlyDriver,
        Against::Made { next } => made(script, past, entry, next),
        Against::Unmade(why) => unmade(script, live, past, entry, why),
    }
}

/// That the call of the entry makes this one.
fn made(script: &Script, past: &[Entry], entry: &Entry, next: Kind) -> OpenCause
    requires few { length past.now < u32.MAX }
    requires workers { script.now.workers < u32.MAX }
    requires seat { entry.now.seat ≤ script.now.workers }
    requires own { IsOwnCall entry.now }
    requires made { IsInPlace (opened script.now) past.now entry.now next }
    ensures { Bars result (opened script.now) past.now entry.now }
{
    match Call::of_entry(entry.seat, entry.kind) {
        Call::Take { .. } => {
            let seats = (
                inside_of(script, past, &next),
                inside_of(script, past, &entry.kind),
            );
            OpenCause::Best {
                next,
                edge: edge_of(script, past, &next, &entry.kind, seats),
            }
        }
        _ => OpenCause::Makes { next },
    }
}

/// Why the call of the entry makes none.
fn unmade(script: &Script, live: &LiveCore, past: &[Entry], entry: &Entry, why: Unmade) -> OpenCause
    requires few { length past.now < u32.MAX }
    requires workers { script.now.workers < u32.MAX }
    requires seat { entry.now.seat ≤ script.now.workers }
    requires own { IsOwnCall entry.now }
    requires unmade { IsUnmade (opened script.now) past.now entry.now why }
    requires stands { StandsFor (opened script.now) past.now live.now }
    ensures { Bars result (opened script.now) past.now entry.now }
{
    match why {
        Unmade::Misuse => OpenCause::Unfit {
            part: part_of(script, past, live.is_done(), entry),
        },
        Unmade::Full => unreachable!(),
        Unmade::Nothing => OpenCause::NoSource {
            bar: bar_of(script, past, entry, inside_of(script, past, &entry.kind)),
        },
        Unmade::Over => OpenCause::Over,
        Unmade::NotYet(not_yet) => waits(Call::of_entry(entry.seat, entry.kind), not_yet),
        Unmade::Blocked(blocked) => OpenCause::Blocked {
            count: blocked.count,
        },
    }
}

/// What the driver waits for by this call.
fn waits(call: Call, not_yet: NotYet) -> OpenCause
    requires { (plan : Plan) × (past : List AnyEntry) × LacksFor plan past call (AnyUnmade.NotYet not_yet) }
    ensures { (plan : Plan) (past : List AnyEntry) (e : AnyEntry) → LacksFor plan past call (AnyUnmade.NotYet not_yet) → BarsCall result plan past e call }
{
    match call {
        Call::Cancelled { job } => OpenCause::Inside {
            job,
            seats: not_yet.running,
        },
        Call::Joined { job } => OpenCause::Inside {
            job,
            seats: not_yet.running,
        },
        _ => OpenCause::NotIdle {
            running: not_yet.running,
            ready: not_yet.ready,
        },
    }
}
