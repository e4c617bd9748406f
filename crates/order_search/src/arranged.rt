use order_model::Event;

/// What became of the search for an order of events.
#[derive(Debug, Drop)]
pub enum Arranged {
    /// All the events, in an order.
    Order {
        events: Vec<Event>,
    },
    /// There is no order. The longest beginning of one that there is, and the events that it leaves.
    NoOrder {
        events: Vec<Event>,
        rest: Vec<Event>,
    },
    /// The search took as many steps as it may. The longest beginning that it found, and the events that it leaves.
    GaveUp {
        events: Vec<Event>,
        rest: Vec<Event>,
    },
}
