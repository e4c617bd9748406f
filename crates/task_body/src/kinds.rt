use crate::act::Act;
use crate::body::TaskBody;
use crate::once_body::OnceBody;
use crate::script_body::ScriptBody;
use crate::work::Work;
use task_base::Cell;

/// The two kinds of bodies as one type: a script's steps, or work that is done at once.
#[derive(Drop)]
pub enum Body<W: Work> {
    /// One step a call.
    Script(ScriptBody),
    /// All at once.
    Once(OnceBody<W>),
}

impl<W: Work> TaskBody for Body<W> {
    ghost use Rattle.task_body.specs.Kinds.{view_of};

    ghost whole = { λ b. (view_of b).whole };

    ghost rest = { λ b. (view_of b).rest };

    fn step(&mut self, cell: &mut Cell) -> Act {
        match self {
            Body::Script(body) => body.step(cell),
            Body::Once(body) => body.step(cell),
        }
    }
}
