ghost use Rattle.std.specs.Prelude.{◌≡◌, [], ◌∷◌, IfSome, map};
ghost use Rattle.std.specs.Str.{bytes_eq};
ghost use Rattle.log_model.specs.Fits.{NextFits, ReplyFits};
ghost use Rattle.log_model.specs.LogText.{shown, next_part, reply_parts};
ghost use Rattle.entry_lines.specs.Kinds.{next_of, ending_of};

use numeral_text::number_32;
use task_base::JobReply;

/// Whether a word is this name. For names this is faster than `==`, which searches four bytes and more in groups.
pub(crate) fn is_word(word: &[u8], name: &[u8]) -> bool
    ensures { result ≡ bytes_eq word.now name.now }
{
    if word.len() != name.len() {
        return false;
    }
    for i in 0..name.len() {
        if word[i] != name[i] {
            return false;
        }
    }
    true
}

/// The item that a seat goes on with: `-` says that there is none.
pub(crate) fn next_of(word: &[u8]) -> Option<Option<u32>>
    ensures same { result ≡ next_of word.now }
    ensures text { IfSome result (λ next. word.now ≡ shown (next_part next)) }
    ensures fits { IfSome result NextFits }
{
    if word == b"-".as_slice() {
        Some(None)
    } else {
        Some(Some(number_32(word)?))
    }
}

/// How a joined job has ended that has no sum.
pub(crate) fn ending_of(word: &[u8]) -> Option<JobReply>
    ensures same { result ≡ ending_of word.now }
    ensures text { IfSome result (λ reply. map shown (reply_parts reply) ≡ word.now ∷ []) }
    ensures fits { IfSome result ReplyFits }
{
    if word == b"refused".as_slice() {
        Some(JobReply::Refused)
    } else if word == b"cancelled".as_slice() {
        Some(JobReply::Cancelled)
    } else if word == b"stopped".as_slice() {
        Some(JobReply::Stopped)
    } else {
        None
    }
}
