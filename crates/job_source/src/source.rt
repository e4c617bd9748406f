ghost use Rattle.std.specs.Prelude.{◌≡◌, ◌<◌, false, is_none, is_some, IfSome, IsSome, None, replicate, true};
ghost use Rattle.std.specs.List.{position};
ghost use Rattle.job_source.specs.Job.{concurrency, held_by, inside, unclaimed, may_enter, entered, with_entered, next_item, with_done, is_over, IsConsistent};
ghost use Rattle.job_source.specs.declared.source.TheConstants.{MOST_INSIDE};

use std::marker::Model;

/// How many workers may be inside a job at most.
pub const MOST_INSIDE: u32 = 32;

const PLACES: usize = MOST_INSIDE as usize;

/// One job (Chromium's `base/task/post_job.h`): items that several workers share, item by item.
///
/// Items are numbered from 0 and are claimed in rising order. A worker that enters gets an id, below 32, and an item;
/// under its id it ends one item after the other, until it leaves. Each worker inside holds exactly one item. No more
/// are inside than the least of the job's cap, 32, and the number of items that are not done.
#[derive(Debug, Drop)]
pub struct JobSource {
    items: u32,
    cap: u32,
    claimed: u32,
    done: u32,
    /// The item that the worker inside under each id holds.
    held: [Option<u32>; PLACES],
    cancelled: bool,
    sum: u64,
}

impl Model for JobSource {
    ghost use Rattle.job_source.specs.Job.{JobView, IsConsistent};

    ghost Value = { JobView };

    ghost view = { λ job. record {
      items = job.items;
      cap = job.cap;
      claimed = job.claimed;
      done = job.done;
      held = job.held;
      cancelled = job.cancelled;
      sum = job.sum;
    } };

    ghost invariant = { λ job. IsConsistent (record {
      items = job.items;
      cap = job.cap;
      claimed = job.claimed;
      done = job.done;
      held = job.held;
      cancelled = job.cancelled;
      sum = job.sum;
    }) };
}

impl JobSource {
    /// A job of so many items, of which none is claimed, with a cap on the workers inside. It takes no memory.
    pub fn new(items: u32, cap: u32) -> JobSource
        ensures { result ≡ record {
          items = items;
          cap = cap;
          claimed = 0;
          done = 0;
          held = replicate MOST_INSIDE None;
          cancelled = false;
          sum = 0;
        } }
    {
        JobSource {
            items,
            cap,
            claimed: 0,
            done: 0,
            held: [None; PLACES],
            cancelled: false,
            sum: 0,
        }
    }

    /// Whether a worker may enter: the job is not cancelled, an item is unclaimed, and fewer are inside than may be.
    pub fn may_enter(&self) -> bool
        ensures { result ≡ may_enter self.now }
    {
        !self.cancelled
            && self.claimed < self.items
            && self.claimed - self.done < self.concurrency()
    }

    /// A worker enters where it may, and gets its id and the item that it claims: the least id that nobody inside has,
    /// and the least unclaimed item.
    pub fn enter(&mut self) -> Option<(u32, u32)>
        ensures answer { result ≡ entered self.old }
        ensures exactly { is_some result ≡ may_enter self.old }
        ensures id { IfSome result (λ got. got.0 < MOST_INSIDE) }
        ensures state { self.new ≡ with_entered self.old result }
    {
        if !self.may_enter() {
            return None;
        }
        let id = free_place(&self.held)?;
        let item = self.claimed;
        self.held[id] = Some(item);
        self.claimed += 1;
        Some((id as u32, item))
    }

    /// The worker inside under an id has ended its item with a value. It goes on with the item that is answered, the
    /// least unclaimed one, or leaves: where it wants to, the job is cancelled, or no item is unclaimed.
    pub fn done(&mut self, id: u32, value: u64, leave: bool) -> Option<u32>
        requires { IsSome (held_by self.old id) }
        ensures answer { result ≡ next_item self.old leave }
        ensures state { self.new ≡ with_done self.old id value result }
    {
        let next = self.next_item(leave);
        self.sum = self.sum.wrapping_add(value);
        self.held[id as usize] = next;
        self.claimed += u32::from(next.is_some());
        self.done += 1;
        next
    }

    /// Cancels the job: nobody enters any more, and each worker inside leaves once it has ended its item.
    pub fn cancel(&mut self)
        ensures { self.new ≡ record self.old { cancelled = true } }
    {
        self.cancelled = true;
    }

    /// How many workers are inside.
    pub fn inside(&self) -> u32
        ensures count { result ≡ inside self.now }
        ensures consistent { IsConsistent self.now }
    {
        self.claimed - self.done
    }

    /// How many items are unclaimed.
    pub fn unclaimed(&self) -> u32
        ensures { result ≡ unclaimed self.now }
    {
        self.items - self.claimed
    }

    /// Whether the job is over: nobody is inside, and all its items are done or it is cancelled.
    pub fn over(&self) -> bool
        ensures { result ≡ is_over self.now }
    {
        self.claimed == self.done && (self.done == self.items || self.cancelled)
    }

    /// The sum of the values of the items that are done, modulo 2^64.
    pub fn sum(&self) -> u64
        ensures { result ≡ self.now.sum }
    {
        self.sum
    }

    /// What a worker that has ended its item goes on with.
    fn next_item(&self, leave: bool) -> Option<u32>
        ensures { result ≡ next_item self.now leave }
    {
        if leave || self.cancelled || self.claimed == self.items {
            return None;
        }
        Some(self.claimed)
    }

    /// How many workers may be inside.
    fn concurrency(&self) -> u32
        ensures { result ≡ concurrency self.now }
    {
        self.cap.min(MOST_INSIDE).min(self.items - self.done)
    }
}

/// The first place at which no item is held.
fn free_place(held: &[Option<u32>]) -> Option<usize>
    ensures { result ≡ position is_none held.now }
{
    held.iter().position(|item| item.is_none())
}
