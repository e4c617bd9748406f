use task_base::Entry;

/// Two times of one clock, the same for all seats, between which an event came. The unit is the writer's.
#[derive(Clone, Copy, Debug, PartialEq, Eq)]
pub struct Span {
    /// It came no earlier than this.
    pub from: u64,
    /// It came no later than this.
    pub to: u64,
}

/// What a seat saw: an entry of its own, and when it came, if the writer had a clock.
#[derive(Clone, Copy, Debug, PartialEq, Eq)]
pub struct Event {
    pub entry: Entry,
    pub span: Option<Span>,
}
