ghost use Rattle.std.specs.Prelude.{◌≡◌, ◌+◌, ◌<◌, ◌^◌, if◌then◌else◌, length, Some, None};
ghost use Rattle.task_model.specs.Keys.{key_at, key_of};
ghost use Rattle.task_model.specs.Time.{is_tick_from};
ghost use Rattle.past_lookup.specs.Posts.{posted};

use crate::posts::Post;
use task_base::{Entry, Key, Kind, Place};

/// The key of a task that was accepted, where it has one.
pub fn key_of(past: &[Entry], post: &Post) -> Option<Key>
    requires { length past.now < 2 ^ 32 }
    ensures { result ≡ key_of past.now (posted post.now) }
{
    if post.delay == 0 {
        return Some(key_at(post.place));
    }
    let mut place = 0;
    for entry in past {
        match ripe_by(&entry.kind, post.moment, post.delay) {
            None => place += 1,
            Some(ripe) => {
                return Some(Key {
                    place,
                    ripe,
                    post: post.place,
                });
            }
        }
    }
    None
}

/// The moment at which a task is ripe that was posted with a delay, where the entry is a tick at it or past it.
fn ripe_by(kind: &Kind, moment: u64, delay: u64) -> Option<u64>
    ensures { result ≡ (if is_tick_from (moment + delay) kind.now then Some (moment + delay) else None) }
{
    match *kind {
        Kind::Tick { now } => {
            if moment <= now && delay <= now - moment {
                Some(moment + delay)
            } else {
                None
            }
        }
        _ => None,
    }
}

/// The key of what is ready from its post on.
pub fn key_at(place: Place) -> Key
    ensures { result ≡ key_at place }
{
    Key {
        place,
        ripe: 0,
        post: place,
    }
}
