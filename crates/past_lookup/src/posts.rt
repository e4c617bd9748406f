ghost use Rattle.std.specs.Prelude.{◌≡◌, ◌<◌, ◌^◌, ◌==◌, List, find, length};
ghost use Rattle.std.specs.Option.{option_map, option_or};
ghost use Rattle.task_base.specs.declared.entry.Entry.{Entry as AnyEntry};
ghost use Rattle.task_model.specs.Posts.{is_taken, posted_by};
ghost use Rattle.pool_laws.specs.Posts.{post_of};
ghost use Rattle.task_model.specs.Time.{now_after, now_of};
ghost use Rattle.past_lookup.specs.Posts.{posted};

use task_base::{Entry, Kind, Place, RunnerId, TaskId};

/// The post of a task that was accepted.
#[derive(Clone, Copy, Debug)]
pub struct Post {
    pub place: Place,
    pub task: TaskId,
    pub runner: RunnerId,
    /// In microseconds.
    pub delay: u64,
    /// The moment at which it was posted, in microseconds.
    pub moment: u64,
}

/// The post of a task that was accepted, if it was.
pub fn post_of(past: &[Entry], task: TaskId) -> Option<Post>
    requires { length past.now < 2 ^ 32 }
    ensures { option_map posted result ≡ post_of past.now task }
{
    let mut post = None;
    let mut moment = 0;
    let mut place = 0;
    for entry in past {
        post = post_after(post, place, moment, task, &entry.kind);
        moment = moment_after(moment, &entry.kind);
        place += 1;
    }
    post
}

/// The post of a task after an entry at this place and moment: the first one counts.
fn post_after(
    post: Option<Post>,
    place: Place,
    moment: u64,
    task: TaskId,
    kind: &Kind,
) -> Option<Post>
    ensures { (before : List AnyEntry) → place ≡ length before → moment ≡ now_of before → option_map posted result
        ≡ option_or (option_map posted post) (find (λ p. p.task == task) (posted_by before kind.now)) }
{
    match (post, *kind) {
        (Some(post), _) => Some(post),
        (
            None,
            Kind::Post {
                task: t,
                runner,
                delay,
                ok: true,
            },
        ) => {
            if t == task {
                Some(Post {
                    place,
                    task,
                    runner,
                    delay,
                    moment,
                })
            } else {
                None
            }
        }
        _ => None,
    }
}

/// The moment after an entry.
fn moment_after(moment: u64, kind: &Kind) -> u64
    ensures { result ≡ now_after moment kind.now }
{
    match *kind {
        Kind::Tick { now } => now,
        _ => moment,
    }
}

/// Whether a task was taken.
#[tactic(auto, unfolding(task_model::specs::Posts::is_taken))]
pub fn is_taken(past: &[Entry], task: TaskId) -> bool
    ensures { result ≡ is_taken past.now task }
{
    past.iter().any(|entry| match entry.kind {
        Kind::Take { task: taken, .. } => taken == task,
        _ => false,
    })
}
