ghost use Rattle.std.specs.Prelude.{ℕ, List};
ghost use Rattle.task_base.specs.Plan.{Plan};
ghost use Rattle.script_model.specs.Canonical.{IsValid};
ghost use Rattle.script_model.specs.Grammar.{Reads};
ghost use Rattle.script_model.specs.Laws.Sound.{IsSound};

/// What every script that is read is like: its numbers are in their ranges and within the limits, what it names is
/// declared, a task posts only tasks declared before it, scopes open and close in turn and only where a task may block,
/// no task is posted twice, a job is started at most once and joined or cancelled only behind its start, and shutdown
/// starts at most once.
pub fn scripts_that_are_read_are_sound()
    ensures sound { (bytes : List ℕ) (script : Plan) → Reads bytes script → IsSound script }
{}

/// A script that any bytes give is what its own canonical text gives. So are the sound ones, and no others: what
/// `IsSound` says of a script is all that there is to say of those that are read.
pub fn scripts_that_are_read_are_valid()
    ensures valid { (bytes : List ℕ) (script : Plan) → Reads bytes script → IsValid script }
    ensures every_sound { (script : Plan) → IsSound script → IsValid script }
{}
