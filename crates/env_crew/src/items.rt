ghost use Rattle.std.specs.Prelude.{◌≡◌, ◌<◌, true, length, None};
ghost use Rattle.task_model.specs.Seats.{is_free, running};
ghost use Rattle.env_core.specs.Jobs.{IsHeld};
ghost use Rattle.env_crew.specs.Desk.{as_seen, mine};
ghost use Rattle.env_crew.specs.Items.{HasDoneItems};

use crate::desk::Desk;
use std::sync::Wait;
use task_body::JobPass;

/// Ends the item of a job that the seat holds, and each that it goes on with, until it leaves the job.
pub(crate) fn do_items<D: Desk, R: Wait>(rt: &R, desk: &mut D, pass: JobPass)
    requires held { IsHeld (as_seen (D.desk desk.old)) (D.desk desk.old).seat pass }
    requires declared { pass.job < length (D.desk desk.old).script.jobs }
    requires idle { running (mine (D.desk desk.old)) (D.desk desk.old).seat ≡ None }
    ensures free { is_free (mine (D.desk desk.new)) (D.desk desk.new).seat ≡ true }
    ensures done { HasDoneItems (D.desk desk.old) (D.desk desk.new) }
{
    let mut pass = Some(pass);
    for _ in rt.forever() {
        let Some(held) = pass.take() else {
            return;
        };
        let value = desk.job_value(held.job(), held.item());
        pass = desk.job_step(rt, held, value);
    }
    unreachable!()
}
