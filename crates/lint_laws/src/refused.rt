ghost use Rattle.std.specs.Prelude.{◌≡◌, ℕ, true, List, Err};
ghost use Rattle.script_model.specs.Draft.{Draft, script_of};
ghost use Rattle.script_lines.specs.declared.command.Command.{Command};
ghost use Rattle.task_script.specs.Added.{added};
ghost use Rattle.script_lint.specs.Lines.{line_objection};
ghost use Rattle.lint_laws.specs.Told.{is_told};

/// Of a command that is refused behind a draft, each of the reasons 6 to 14 has its place, and says what is wrong there.
pub fn each_refused_line_has_its_place()
    ensures { (d : Draft) (front : List ℕ) (command : Command) (reason : ℕ) → added d command ≡ Err reason
        → is_told (line_objection (script_of d) front command reason) ≡ true }
{}
