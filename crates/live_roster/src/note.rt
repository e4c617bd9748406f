/// What is noted of a seat.
#[derive(Clone, Copy, Debug, PartialEq, Eq)]
pub enum Note {
    /// It is awake: its thread has held the lock since it was woken.
    Awake,
    /// It found nothing to do, and sleeps until it is woken.
    Resting,
    /// It was woken, or is about to be, and its thread hasn't held the lock since.
    Woken,
}
