ghost use Rattle.std.specs.Prelude.{◌≡◌};
ghost use Rattle.line_text.specs.Words.{texts};
ghost use Rattle.task_reply.specs.Replies.{home_named, id_of, is_skipped, reply_line_said, reply_of, reply_said, reply_words_said};
ghost use Rattle.task_reply.specs.Tables.{SaysReply};

use crate::reason::BAD_LINE;
use crate::reply::{Home, Reply};
use crate::words::words_of;
use line_words::begins_comment;
use numeral_text::{is_numeral, value_of};
use script_lines::LineFault;
use std::alloc::Global;

/// The reply that a line says; a line without words and a comment say none. The line stands here without its line feed
/// and its carriage return.
pub(crate) fn read_line(alloc: Global, line: &[u8]) -> Result<Option<Reply>, LineFault>
    ensures { SaysReply result (reply_line_said line.now) }
{
    let words = words_of(alloc, line)?;
    said(words.as_slice())
}

/// The reply that words say.
fn said(words: &[&[u8]]) -> Result<Option<Reply>, LineFault>
    ensures { SaysReply result (reply_words_said (texts words.now)) }
{
    if is_skipped(words) {
        return Ok(None);
    }
    match reply_said(words) {
        Some(reply) => Ok(Some(reply)),
        None => Err(LineFault::Bad { reason: BAD_LINE }),
    }
}

/// Whether words say nothing: there are none, or they are a comment.
fn is_skipped(words: &[&[u8]]) -> bool
    ensures { result ≡ is_skipped (texts words.now) }
{
    match words {
        [first, ..] => begins_comment(first),
        [] => true,
    }
}

/// The reply that words are, if they are one.
#[tactic(auto, unfolding(crate::specs::Replies::reply_said))]
fn reply_said(words: &[&[u8]]) -> Option<Reply>
    ensures { result ≡ reply_said (texts words.now) }
{
    match words {
        [name, task, reply, sort, home] if *name == b"reply".as_slice() => {
            reply_of(task, reply, sort, home)
        }
        _ => None,
    }
}

/// The reply whose parts the words write.
#[tactic(auto, unfolding(crate::specs::Replies::reply_of))]
fn reply_of(task: &[u8], reply: &[u8], sort: &[u8], home: &[u8]) -> Option<Reply>
    ensures { result ≡ reply_of task.now reply.now sort.now home.now }
{
    let task = id_of(task)?;
    let reply = id_of(reply)?;
    let home = home_named(sort, id_of(home)?)?;
    Some(Reply { task, reply, home })
}

/// The home of this number, of the sort that a word names.
#[tactic(auto, unfolding(crate::specs::Replies::home_named))]
fn home_named(sort: &[u8], id: u32) -> Option<Home>
    ensures { result ≡ home_named sort.now id }
{
    if sort == b"runner".as_slice() {
        Some(Home::Runner(id))
    } else if sort == b"queue".as_slice() {
        Some(Home::Queue(id))
    } else {
        None
    }
}

/// The number of 32 bits that a word writes.
#[tactic(auto, unfolding(crate::specs::Replies::id_of))]
fn id_of(word: &[u8]) -> Option<u32>
    ensures { result ≡ id_of word.now }
{
    if !is_numeral(word) || word.len() > 20 {
        return None;
    }
    u32::try_from(value_of(word)?).ok()
}
