use order_model::Event;

/// An event that was placed, and where it stands among all that are tried.
#[derive(Clone, Copy, Debug)]
pub(crate) struct Placed {
    pub index: usize,
    pub event: Event,
}
