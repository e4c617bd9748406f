ghost use Rattle.std.specs.Prelude.{◌≡◌, IfNone, IfSome};
ghost use Rattle.env_core.specs.Views.{Enters};
ghost use Rattle.env_step.specs.Hands.{AreInHand};
ghost use Rattle.simulation.specs.Draw.{left_of};
ghost use Rattle.simulation.specs.Simulated.{drawn_in};
ghost use Rattle.simulation.specs.Turns.{AreKnown, NobodyMay};

use crate::draw::Draw;
use env_core::Env;
use env_step::Hands;
use task_base::{Entry, Script};
use task_body::ScriptBody;

/// Draws seats that are left until one of them makes an entry, with this reading of the clock. None where none of them may.
pub fn draw_entry(
    env: &mut Env<ScriptBody>,
    hands: &mut Hands,
    script: &Script,
    draw: &mut Draw,
    reading: u64,
) -> Option<Entry>
    requires hands { AreInHand env.old hands.old }
    requires script { script.now ≡ env.old.script }
    requires known { AreKnown env.old.script draw.old }
    ensures drawn { record { entry = result; drawing = draw.new } ≡ drawn_in (left_of draw.old) env.old.script env.old.history reading draw.old }
    ensures hands { AreInHand env.new hands.new }
    ensures enters { IfSome result (λ e. Enters env.old env.new e.seat e.kind) }
    ensures stays { IfNone result (env.new ≡ env.old) }
    ensures nobody { IfNone result (NobodyMay env.old reading draw.old) }
{
    while let Some(seat) = draw.next() {
        match hands.step(env, script, seat, reading) {
            Ok(kind) => return Some(Entry { seat, kind }),
            Err(_) => {}
        }
    }
    None
}
