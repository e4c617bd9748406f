ghost use Rattle.std.specs.Prelude.{◌≡◌, IfOk, take};
ghost use Rattle.line_text.specs.Words.{texts};
ghost use Rattle.script_model.specs.Words.{words_of};

use line_words::is_blank;
use std::alloc::{AllocError, Global};

/// The words of a line, or the first six of them: no line that says something has so many.
pub(crate) fn words_of(alloc: Global, line: &[u8]) -> Result<Vec<&[u8]>, AllocError>
    ensures { IfOk result (λ words. texts words.items ≡ take 6 (words_of line.now)) }
{
    line.split(|byte| is_blank(*byte))
        .filter(|word| !word.is_empty())
        .take(6)
        .collect(alloc)
}
