ghost use Rattle.std.specs.Prelude.{◌≡◌, ◌+◌, ◌<◌, ◌^◌, ◌≤◌, IsSome, IsSomeAnd, Some, None};
ghost use Rattle.task_base.specs.declared.limits.TheConstants.{MOST_WORKERS};
ghost use Rattle.thread_group.specs.Group.{work_at, with_work, with_scope, has_room, load};
ghost use Rattle.pool_core.specs.Groups.{group_at, group_in, with_group, with_group_at, empty_groups, ticked};

use task_base::{Priority, Scope, Script, SeatNo};
use thread_group::Group;

/// The two groups of the pool (Chromium's `thread_pool/thread_pool_impl.h`). A call says whether new work is the
/// background group's; the groups themselves know what each seat does until it ends.
#[derive(Debug, Drop)]
pub struct Groups {
    pub foreground: Group,
    pub background: Group,
}

impl Groups {
    /// The groups of a script, which run nothing.
    pub fn new(script: &Script) -> Groups
        ensures { result ≡ empty_groups script.now }
    {
        Groups {
            foreground: Group::new(script.foreground, script.foreground_best, script.threshold),
            background: Group::new(script.background, script.background, script.threshold),
        }
    }

    /// Whether work of a priority may start in a group.
    pub fn has_room(&self, background: bool, priority: Priority) -> bool
        ensures { result ≡ has_room (group_in self.now background) priority }
    {
        if background {
            self.background.may_start(priority)
        } else {
            self.foreground.may_start(priority)
        }
    }

    /// How many seats do work of the pool.
    pub fn running(&self) -> u32
        requires { load self.now.foreground + load self.now.background < 2 ^ 32 }
        ensures { result ≡ load self.now.foreground + load self.now.background }
    {
        self.foreground.running() + self.background.running()
    }

    /// A seat has started on work of a group.
    pub fn started(&mut self, background: bool, seat: SeatNo, priority: Priority)
        requires worker { 1 ≤ seat }
        requires seat { seat ≤ MOST_WORKERS }
        requires free { work_at (group_in self.old background) seat ≡ None }
        ensures { self.new ≡ with_group self.old background
            (with_work (group_in self.old background) seat (Some (record { priority = priority; scope = None }))) }
    {
        if background {
            self.background.started(seat, priority);
        } else {
            self.foreground.started(seat, priority);
        }
    }

    /// A seat has ended its work.
    pub fn ended(&mut self, seat: SeatNo)
        requires worker { 1 ≤ seat }
        requires seat { seat ≤ MOST_WORKERS }
        requires runs { IsSomeAnd (work_at (group_at self.old seat) seat) (λ work. work.scope ≡ None) }
        ensures { self.new ≡ with_group_at self.old seat (with_work (group_at self.old seat) seat None) }
    {
        if self.background.runs(seat) {
            self.background.ended(seat);
        } else {
            self.foreground.ended(seat);
        }
    }

    /// A seat's work has opened a scope.
    pub fn enter_scope(&mut self, seat: SeatNo, scope: Scope)
        requires worker { 1 ≤ seat }
        requires seat { seat ≤ MOST_WORKERS }
        requires runs { IsSomeAnd (work_at (group_at self.old seat) seat) (λ work. work.scope ≡ None) }
        ensures { let group = group_at self.old seat in
            self.new ≡ with_group_at self.old seat (with_scope group seat (Some (record { scope = scope; since = group.moment }))) }
    {
        if self.background.runs(seat) {
            self.background.enter_scope(seat, scope);
        } else {
            self.foreground.enter_scope(seat, scope);
        }
    }

    /// A seat's work has closed its scope.
    pub fn leave_scope(&mut self, seat: SeatNo)
        requires worker { 1 ≤ seat }
        requires seat { seat ≤ MOST_WORKERS }
        requires open { IsSomeAnd (work_at (group_at self.old seat) seat) (λ work. IsSome work.scope) }
        ensures { self.new ≡ with_group_at self.old seat (with_scope (group_at self.old seat) seat None) }
    {
        if self.background.runs(seat) {
            self.background.leave_scope(seat);
        } else {
            self.foreground.leave_scope(seat);
        }
    }

    /// The clock has been read.
    pub fn tick(&mut self, moment: u64)
        requires foreground { self.old.foreground.moment ≤ moment }
        requires background { self.old.background.moment ≤ moment }
        ensures { self.new ≡ ticked self.old moment }
    {
        self.foreground.tick(moment);
        self.background.tick(moment);
    }
}
