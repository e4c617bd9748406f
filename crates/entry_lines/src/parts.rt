ghost use Rattle.std.specs.Prelude.{◌≡◌, ◌≤◌, ◌∷◌, codes, length, map};
ghost use Rattle.std.specs.List.{AllByRecursion};
ghost use Rattle.log_model.specs.LogText.{parts_of, word, number, next_part, reply_parts};
ghost use Rattle.entry_lines.specs.Parts.{said, IsShort};
ghost use Rattle.entry_lines.specs.declared.parts.Part.TheVariants.{Number};

use Part::{Number, Word};
use arrayvec::ArrayVec;
use task_base::{JobId, JobReply, Kind};
use value_words::{fence_word, policy_word, priority_word, reply_word, scope_word, vote_word};

/// What an entry is written as: a word, or a number.
#[derive(Clone, Copy, Debug)]
pub enum Part {
    /// The word of a kind or of a value, or `-` for no item.
    Word(&'static str),
    /// A number of 64 bits, or of fewer.
    Number(u64),
}

impl Default for Part {
    fn default() -> Part {
        Number(0)
    }
}

/// The word of a kind, and its arguments. It takes no memory.
pub fn parts_of(kind: &Kind) -> ArrayVec<Part, 6>
    ensures parts { map said result.items ≡ parts_of kind.now }
    ensures short { AllByRecursion IsShort result.items }
{
    match *kind {
        Kind::Post {
            task,
            runner,
            delay,
            ok,
        } => row(&[
            Word("post"),
            number(task),
            number(runner),
            Number(delay),
            Word(reply_word(ok)),
        ]),
        Kind::Main {
            task,
            queue,
            delay,
            ok,
        } => row(&[
            Word("main"),
            number(task),
            number(queue),
            Number(delay),
            Word(reply_word(ok)),
        ]),
        Kind::Tick { now } => row(&[Word("tick"), Number(now)]),
        Kind::Take {
            task,
            runner,
            found,
        } => row(&[Word("take"), number(task), number(runner), Number(found)]),
        Kind::End { task, left } => row(&[Word("end"), number(task), Number(left)]),
        Kind::Enter { task, scope } => row(&[Word("block"), number(task), Word(scope_word(scope))]),
        Kind::Leave { task } => row(&[Word("unblock"), number(task)]),
        Kind::Policy { policy } => row(&[Word("policy"), Word(policy_word(policy))]),
        Kind::Reprio { runner, priority } => row(&[
            Word("reprio"),
            number(runner),
            Word(priority_word(priority)),
        ]),
        Kind::Fence { queue, at } => row(&[Word("fence"), number(queue), Word(fence_word(at))]),
        Kind::Unfence { queue } => row(&[Word("unfence"), number(queue)]),
        Kind::Vote { queue, voter, on } => row(&[
            Word("vote"),
            number(queue),
            Number(u64::from(voter)),
            Word(vote_word(on)),
        ]),
        Kind::Rank { queue, class } => row(&[
            Word("rank"),
            number(queue),
            Number(u64::from(class)),
        ]),
        Kind::Close { queue } => row(&[Word("close"), number(queue)]),
        Kind::MainTake { task, queue, found } => row(&[
            Word("maintake"),
            number(task),
            number(queue),
            Number(found),
        ]),
        Kind::MainEnd { task, left } => row(&[Word("mainend"), number(task), Number(left)]),
        Kind::MainNone => row(&[Word("mainnone")]),
        Kind::JobPost { job, ok } => row(&[Word("startjob"), number(job), Word(reply_word(ok))]),
        Kind::JobTake { job, id, item } => row(&[
            Word("jobtake"),
            number(job),
            number(id),
            number(item),
        ]),
        Kind::JobStep {
            job,
            id,
            item,
            value,
            next,
        } => row(&[
            Word("jobstep"),
            number(job),
            number(id),
            number(item),
            Number(value),
            part_of_next(next),
        ]),
        Kind::JobCancel { job } => row(&[Word("cancel"), number(job)]),
        Kind::Cancelled { job } => row(&[Word("cancelled"), number(job)]),
        Kind::Joined { job, reply } => joined(job, reply),
        Kind::Idle => row(&[Word("idle")]),
        Kind::Shutdown => row(&[Word("shutdown")]),
        Kind::Done => row(&[Word("done")]),
    }
}

// The join of a job, and how it has ended: a word, and the sum of a job that is done.
fn joined(job: JobId, reply: JobReply) -> ArrayVec<Part, 6>
    ensures parts { map said result.items ≡ word (codes "joined") ∷ number job ∷ reply_parts reply }
    ensures short { AllByRecursion IsShort result.items }
{
    let (name, job) = (Word("joined"), number(job));
    match reply {
        JobReply::Refused => row(&[name, job, Word("refused")]),
        JobReply::Finished { sum } => row(&[name, job, Word("done"), Number(sum)]),
        JobReply::Cancelled => row(&[name, job, Word("cancelled")]),
        JobReply::Stopped => row(&[name, job, Word("stopped")]),
    }
}

// The item that a seat goes on with, or `-` where it leaves the job.
fn part_of_next(next: Option<u32>) -> Part
    ensures part { said result ≡ next_part next }
    ensures short { IsShort result }
{
    match next {
        Some(item) => number(item),
        None => Word("-"),
    }
}

fn number(n: u32) -> Part
    ensures { result ≡ Number n }
{
    Number(u64::from(n))
}

fn row(parts: &[Part]) -> ArrayVec<Part, 6>
    requires { length parts.now ≤ 6 }
    ensures { result.items ≡ parts.now }
{
    let mut row = ArrayVec::new();
    let _fits = row.try_extend_from_slice(parts);
    row
}
