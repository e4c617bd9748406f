ghost use Rattle.std.specs.Prelude.{◌≡◌, IfOk};
ghost use Rattle.line_text.specs.Words.{texts};
ghost use Rattle.script_model.specs.Words.{words_of};

use line_words::is_blank;
use std::alloc::{AllocError, Global};

/// The words of a line, first to last. The error is want of memory.
pub(crate) fn words_of(alloc: Global, line: &[u8]) -> Result<Vec<&[u8]>, AllocError>
    ensures { IfOk result (λ words. texts words.items ≡ words_of line.now) }
{
    let mut words = Vec::new(alloc);
    for word in line.split(|byte| is_blank(*byte)) {
        if !word.is_empty() {
            words.push(word)?;
        }
    }
    Ok(words)
}
