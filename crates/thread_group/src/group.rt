ghost use Rattle.std.specs.Prelude.{◌≡◌, ◌+◌, ◌≤◌, IsSome, IsSomeAnd, is_some, nat_le, nat_lt, replicate};
ghost use Rattle.task_base.specs.declared.limits.TheConstants.{MOST_WORKERS};
ghost use Rattle.thread_group.specs.Group.{work_at, with_work, with_scope, load, capacity, has_room};

use crate::counts::{Counts, at_moment, shares};
use crate::work::{OpenScope, Work, is_best_effort};
use std::marker::Model;
use task_base::{MOST_WORKERS, Scope, SeatNo};
use task_traits::Priority;

/// One place for each seat, that of the driver among them.
const PLACES: usize = MOST_WORKERS as usize + 1;

/// One of the two groups of the pool (Chromium's `thread_pool/thread_group.h`): which seats run its work, and
/// whether more may start.
///
/// A group runs as much work as its limit says, and one more for each seat that is blocked: its open scope
/// surely blocks, or may block and has been open for the threshold. The same holds of best-effort work alone,
/// under a limit of its own. A seat is the number of a worker, from 1 to 64; moments are in microseconds.
#[derive(Debug, Drop)]
pub struct Group {
    limit: u32,
    best_limit: u32,
    threshold: u64,
    moment: u64,
    seats: [Option<Work>; PLACES],
    counts: Counts,
}

impl Model for Group {
    ghost use Rattle.thread_group.specs.Counts.{AreCounts};
    ghost use Rattle.thread_group.specs.Group.{GroupWork};

    ghost Value = { GroupWork };

    ghost view = { λ g. record {
      seats = g.seats;
      limit = g.limit;
      best_limit = g.best_limit;
      threshold = g.threshold;
      moment = g.moment;
    } };

    ghost invariant = { λ g. AreCounts g.threshold g.moment g.seats g.counts };
}

impl Group {
    /// A group that runs nothing, at moment 0, with its two limits and its threshold in microseconds.
    pub fn new(limit: u32, best_limit: u32, threshold: u64) -> Group
        ensures { result ≡ record {
          seats = replicate (MOST_WORKERS + 1) None;
          limit = limit;
          best_limit = best_limit;
          threshold = threshold;
          moment = 0;
        } }
    {
        Group {
            limit,
            best_limit,
            threshold,
            moment: 0,
            seats: [None; PLACES],
            counts: Counts::NONE,
        }
    }

    /// Whether work of a priority may start here now.
    pub fn may_start(&self, priority: Priority) -> bool
        ensures { result ≡ has_room self.now priority }
    {
        let counts = &self.counts;
        is_below(counts.running, self.limit, counts.blocked)
            && (!is_best_effort(priority)
                || is_below(counts.best_running, self.best_limit, counts.best_blocked))
    }

    /// How much work runs here.
    pub fn running(&self) -> u32
        ensures { result ≡ load self.now }
    {
        self.counts.running
    }

    /// Whether as much work runs here as may.
    pub fn full(&self) -> bool
        ensures { result ≡ nat_le (capacity self.now) (load self.now) }
    {
        !is_below(self.counts.running, self.limit, self.counts.blocked)
    }

    /// Whether a seat does work here.
    pub fn runs(&self, seat: SeatNo) -> bool
        requires { seat ≤ MOST_WORKERS }
        ensures { result ≡ is_some (work_at self.now seat) }
    {
        self.seats[seat as usize].is_some()
    }

    /// A seat has started on work of a priority.
    pub fn started(&mut self, seat: SeatNo, priority: Priority)
        requires worker { 1 ≤ seat }
        requires seat { seat ≤ MOST_WORKERS }
        requires free { work_at self.old seat ≡ None }
        ensures { self.new ≡ with_work self.old seat (Some (record { priority = priority; scope = None })) }
    {
        self.put(
            seat,
            Some(Work {
                priority,
                scope: None,
            }),
        );
    }

    /// A seat has ended what it ran here.
    pub fn ended(&mut self, seat: SeatNo)
        requires worker { 1 ≤ seat }
        requires seat { seat ≤ MOST_WORKERS }
        requires runs { IsSomeAnd (work_at self.old seat) (λ work. work.scope ≡ None) }
        ensures { self.new ≡ with_work self.old seat None }
    {
        self.put(seat, None);
    }

    /// What a seat runs here has opened a blocking scope, at the group's moment.
    pub fn enter_scope(&mut self, seat: SeatNo, scope: Scope)
        requires worker { 1 ≤ seat }
        requires seat { seat ≤ MOST_WORKERS }
        requires runs { IsSomeAnd (work_at self.old seat) (λ work. work.scope ≡ None) }
        ensures { self.new ≡ with_scope self.old seat (Some (record { scope = scope; since = self.old.moment })) }
    {
        let since = self.moment;
        self.put_scope(seat, Some(OpenScope { scope, since }));
    }

    /// What a seat runs here has closed its blocking scope.
    pub fn leave_scope(&mut self, seat: SeatNo)
        requires worker { 1 ≤ seat }
        requires seat { seat ≤ MOST_WORKERS }
        requires open { IsSomeAnd (work_at self.old seat) (λ work. IsSome work.scope) }
        ensures { self.new ≡ with_scope self.old seat None }
    {
        self.put_scope(seat, None);
    }

    /// The clock has been read. It looks at the seats up to the last one whose open scope doesn't count yet.
    pub fn tick(&mut self, now: u64)
        requires { self.old.moment ≤ now }
        ensures { self.new ≡ record self.old { moment = now } }
    {
        self.counts = at_moment(self.counts, &self.seats, self.threshold, self.moment, now);
        self.moment = now;
    }

    fn put_scope(&mut self, seat: SeatNo, scope: Option<OpenScope>)
        requires { seat ≤ MOST_WORKERS }
        ensures { self.new ≡ with_scope self.old seat scope }
    {
        let work = self.seats[seat as usize].map(|work| Work { scope, ..work });
        self.put(seat, work);
    }

    /// Puts other work on a seat, or none.
    fn put(&mut self, seat: SeatNo, work: Option<Work>)
        requires { seat ≤ MOST_WORKERS }
        ensures { self.new ≡ with_work self.old seat work }
    {
        let place = seat as usize;
        let was = shares(self.seats[place], self.threshold, self.moment);
        let is = shares(work, self.threshold, self.moment);
        self.counts = self.counts.moved(was, is);
        self.seats[place] = work;
    }
}

/// Whether less runs than the limit, raised by what is blocked, lets run.
fn is_below(running: u32, limit: u32, blocked: u32) -> bool
    ensures { result ≡ nat_lt running (limit + blocked) }
{
    u64::from(running) < u64::from(limit) + u64::from(blocked)
}
