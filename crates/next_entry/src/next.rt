ghost use Rattle.std.specs.Prelude.{◌≡◌, ◌<◌, ◌^◌, Some, length, true};
ghost use Rattle.script_model.specs.Laws.Sound.{IsSound};
ghost use Rattle.task_model.specs.Seats.{is_free};
ghost use Rattle.env_core.specs.Calls.{IsFreeWorker};
ghost use Rattle.env_step.specs.Hands.{AreInHand};
ghost use Rattle.next_entry.specs.Causes.{Explains};
ghost use Rattle.next_entry.specs.Ranks.{edge_of};

use crate::bar::bar_of;
use crate::cause::{Cause, Edge};
use crate::rank::{edge_of, inside_of};
use env_core::Env;
use env_step::{Hand, do_rest};
use task_base::{Entry, Kind, Script};
use task_body::{ScriptBody, Taken};

/// What a worker takes next that is free, and by what rather than the entry, or why it takes nothing.
pub fn next_of_worker(
    env: &mut Env<ScriptBody>,
    hands: &[Hand],
    script: &Script,
    past: &[Entry],
    entry: &Entry,
) -> Cause
    requires plan { IsSound env.old.script }
    requires hands { AreInHand env.old hands.now }
    requires script { script.now ≡ env.old.script }
    requires past { past.now ≡ env.old.history }
    requires few { length past.now < 2 ^ 32 }
    requires free { is_free env.old.history entry.now.seat ≡ true }
    requires worker { IsFreeWorker env.old entry.now.seat }
    ensures { Explains result env.old.script env.old.history entry.now.seat (Some entry.now.kind) }
{
    match env.take(entry.seat) {
        Taken::Over => Cause::Finished,
        Taken::Nothing => Cause::NoSource {
            bar: bar_of(script, past, entry, inside_of(hands, &entry.kind)),
        },
        Taken::Item(pass) => {
            let next = Kind::JobTake {
                job: pass.job(),
                id: pass.id(),
                item: pass.item(),
            };
            Cause::Best {
                next,
                edge: edge_in_hand(script, past, hands, &next, &entry.kind),
            }
        }
        Taken::Task(work) => {
            let next = Kind::Take {
                task: work.task(),
                runner: work.home(),
                found: work.found(),
            };
            let _ = do_rest(work);
            Cause::Best {
                next,
                edge: edge_in_hand(script, past, hands, &next, &entry.kind),
            }
        }
    }
}

/// What the source that an entry takes has over the one that another entry takes, where the seats have this in hand.
fn edge_in_hand(script: &Script, past: &[Entry], hands: &[Hand], next: &Kind, kind: &Kind) -> Edge
    requires few { length past.now < 2 ^ 32 }
    requires hands { AreInHand (record { script = script.now; history = past.now }) hands.now }
    ensures { result ≡ edge_of script.now past.now next.now kind.now }
{
    let seats = (inside_of(hands, next), inside_of(hands, kind));
    edge_of(script, past, next, kind, seats)
}
