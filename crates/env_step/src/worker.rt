ghost use Rattle.std.specs.Prelude.{◌≡◌, ℕ};
ghost use Rattle.hist_model.specs.Open.{IsClosed};
ghost use Rattle.env_core.specs.Calls.{IsFreeWorker};
ghost use Rattle.env_step.specs.Steps.{IsStep};

use crate::hand::{Hand, advance};
use crate::wait::Wait;
use env_core::Env;
use task_base::{Kind, SeatNo};
use task_body::{ScriptBody, Taken};

/// A worker that is free takes its best source.
pub fn step_of_worker(env: &mut Env<ScriptBody>, seat: SeatNo) -> (Hand, Result<Kind, Wait>)
    requires closed { IsClosed env.old.script }
    requires worker { IsFreeWorker env.old seat }
    ensures { (reading : ℕ) → IsStep env.old env.new seat reading result.0 result.1 }
{
    match env.take(seat) {
        Taken::Over => (Hand::Free, Err(Wait::Over)),
        Taken::Nothing => (Hand::Free, Err(Wait::NoSource)),
        Taken::Item(pass) => {
            let kind = Kind::JobTake {
                job: pass.job(),
                id: pass.id(),
                item: pass.item(),
            };
            (Hand::Item(pass), Ok(kind))
        }
        Taken::Task(work) => {
            let kind = Kind::Take {
                task: work.task(),
                runner: work.home(),
                found: work.found(),
            };
            (Hand::Task(advance(work)), Ok(kind))
        }
    }
}
