ghost use Rattle.std.specs.Prelude.{◌≡◌, ℕ};
ghost use Rattle.hist_model.specs.Legal.{IsLegal};
ghost use Rattle.env_core.specs.Jobs.{IsHeld};
ghost use Rattle.env_step.specs.Steps.{IsStep};

use crate::hand::Hand;
use crate::wait::Wait;
use env_core::Env;
use past_lookup::value_of;
use task_base::{Kind, Script, SeatNo};
use task_body::{JobPass, ScriptBody};

/// A seat that holds an item ends it with its value, and goes on with another one or leaves the job.
pub fn step_of_item(
    env: &mut Env<ScriptBody>,
    script: &Script,
    seat: SeatNo,
    pass: JobPass,
) -> (Hand, Result<Kind, Wait>)
    requires script { script.now ≡ env.old.script }
    requires legal { IsLegal env.old.script env.old.history }
    requires held { IsHeld env.old seat pass }
    ensures { (reading : ℕ) → IsStep env.old env.new seat reading result.0 result.1 }
{
    let (job, id, item) = (pass.job(), pass.id(), pass.item());
    let value = value_of(script, job, item);
    match env.job_step(seat, pass, value) {
        None => (
            Hand::Free,
            Ok(Kind::JobStep {
                job,
                id,
                item,
                value,
                next: None,
            }),
        ),
        Some(pass) => {
            let kind = Kind::JobStep {
                job,
                id,
                item,
                value,
                next: Some(pass.item()),
            };
            (Hand::Item(pass), Ok(kind))
        }
    }
}
