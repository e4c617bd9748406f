ghost use Rattle.std.specs.Prelude.{◌≡◌, All, Bool, IfOk, List};

use std::alloc::{AllocError, Global};
use std::hash::Hash;

/// Places, and where each goes on to.
pub trait Walk {
    /// A place. Places that are found equal are one place.
    type Place: Eq + Hash + Drop;

    /// To which places a place goes on, in one step each.
    ghost onward: { Self → Self.Place → List Self.Place };

    /// Whether a path may end at a place.
    ghost is_end: { Self → Self.Place → Bool };

    /// What is true of each place that is reached.
    ghost IsReached: { Self → Self.Place → Type 0 };

    /// The places to which a place goes on. The error is out of memory.
    fn onward(&self, alloc: Global, place: &Self::Place) -> Result<Vec<Self::Place>, AllocError>
        requires { IsReached self.now place.now }
        ensures { IfOk result (λ places. places.items ≡ onward self.now place.now) };

    /// Whether a path may end at the place.
    fn is_end(&self, place: &Self::Place) -> bool
        requires { IsReached self.now place.now }
        ensures { result ≡ is_end self.now place.now };

    // Each place to which a place that is reached goes on is reached.
    ghost goes_on: { (walk : Self) (place : Self.Place) → IsReached walk place → All (IsReached walk) (onward walk place) };
}
