//! What a line says whose words are right.
ghost use Rattle.std.specs.Prelude.{◌≡◌};
ghost use Rattle.reply_lint.specs.Said.{home_at, id_at, is_reply, reply_in};

use line_places::{command_of, id_of, word_at};
use task_reply::{Home, Reply};

/// Whether the line has the command of a reply.
pub(crate) fn is_reply(line: &[u8]) -> bool
    ensures { result ≡ is_reply line.now }
{
    command_of(line) == b"reply".as_slice()
}

/// The number of 32 bits at a place, if there is one.
pub(crate) fn id_at(line: &[u8], place: usize) -> Option<u32>
    ensures { result ≡ id_at line.now place }
{
    id_of(word_at(line, place)?)
}

/// Where a reply is posted to.
fn home_at(line: &[u8]) -> Option<Home>
    ensures { result ≡ home_at line.now }
{
    let sort = word_at(line, 4)?;
    let id = id_at(line, 5)?;
    if sort == b"runner".as_slice() {
        Some(Home::Runner(id))
    } else {
        Some(Home::Queue(id))
    }
}

/// The reply that a line says.
pub(crate) fn reply_in(line: &[u8]) -> Option<Reply>
    ensures { result ≡ reply_in line.now }
{
    Some(Reply {
        task: id_at(line, 2)?,
        reply: id_at(line, 3)?,
        home: home_at(line)?,
    })
}
