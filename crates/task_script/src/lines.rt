ghost use Rattle.std.specs.Prelude.{Err, Ok};
ghost use Rattle.std.specs.Str.Lines.{strip_carriage_return};
ghost use Rattle.script_model.specs.Grammar.{at_line};
ghost use Rattle.script_model.specs.Lines.{line_read};

use crate::fault::ScriptFault;
use crate::reader::Reader;
use script_lines::{LineFault, read_line, without_return};

impl Reader {
    ghost use Rattle.task_script.specs.Reader.{draft, Tables, Turns, TurnsAt};

    /// Reads the next line, whose number this is. After a fault the reader is of no more use.
    pub(crate) fn read_line(&mut self, number: u32, line: &[u8]) -> Result<(), ScriptFault>
        requires { Tables self.old }
        ensures { TurnsAt result self.new (at_line number (line_read (draft self.old) (strip_carriage_return line.now))) }
    {
        match self.read_text(without_return(line)) {
            Ok(()) => Ok(()),
            Err(LineFault::Bad { reason }) => Err(ScriptFault::Bad {
                line: number,
                reason,
            }),
            Err(LineFault::Memory(error)) => Err(ScriptFault::Memory(error)),
        }
    }

    /// Reads the text of the next line.
    fn read_text(&mut self, line: &[u8]) -> Result<(), LineFault>
        requires { Tables self.old }
        ensures { Turns result self.new (line_read (draft self.old) line.now) }
    {
        let command = read_line(self.alloc, line)?;
        self.take(command)
    }
}
