ghost use Rattle.std.specs.Prelude.{◌≡◌};
ghost use Rattle.queue_selector.specs.Rows.{order_in, with_order};

use task_base::Lane;

/// What is known of one main queue: its class, and the fronts that may run.
#[derive(Clone, Copy, Debug)]
pub struct Row {
    /// The class, from 0, which goes first, to `LAST_CLASS`.
    pub class: u8,
    /// The order of the front of the immediate lane, where it is open.
    pub immediate: Option<u64>,
    /// The order of the front of the delayed lane, where it is open.
    pub delayed: Option<u64>,
}

impl Row {
    /// Of a queue of class 0 with no open front.
    pub(crate) const CLOSED: Row = Row {
        class: 0,
        immediate: None,
        delayed: None,
    };

    /// The row with another front in one lane, or none.
    pub(crate) fn with_order(self, lane: Lane, order: Option<u64>) -> Row
        ensures { result ≡ with_order self lane order }
    {
        match lane {
            Lane::Immediate => Row {
                immediate: order,
                ..self
            },
            Lane::Delayed => Row {
                delayed: order,
                ..self
            },
        }
    }

    /// The order of the open front of one lane.
    pub(crate) fn order(&self, lane: Lane) -> Option<u64>
        ensures { result ≡ order_in lane self.now }
    {
        match lane {
            Lane::Immediate => self.immediate,
            Lane::Delayed => self.delayed,
        }
    }
}
