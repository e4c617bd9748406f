ghost use Rattle.std.specs.Prelude.{◌≡◌, min};
ghost use Rattle.script_model.specs.Reasons.{◌&◌};

use std::marker::Model;

/// A rule that the words of a line break (this project's own rules). Contracts see its number, from 1 to 5.
#[derive(Clone, Copy, Debug)]
pub struct Reason {
    number: u8,
}

impl Model for Reason {
    ghost use Rattle.std.specs.Prelude.{ℕ};

    ghost Value = { ℕ };

    ghost view = { λ reason. reason.number };

    ghost inverse = { λ number. record { number = number } };
}

impl Reason {
    /// The line has a byte above 127.
    pub const NOT_ASCII: Reason = Reason { number: 1 };

    /// A word is no command, no step, or none of the words that its place takes.
    pub const UNKNOWN_WORD: Reason = Reason { number: 2 };

    /// There are too few words, or too many.
    pub const WORD_COUNT: Reason = Reason { number: 3 };

    /// A word where a number stands is none.
    pub const BAD_NUMBER: Reason = Reason { number: 4 };

    /// A number is outside its range.
    pub const OUT_OF_RANGE: Reason = Reason { number: 5 };

    /// Its number: of several reasons the least counts.
    pub fn number(self) -> u8
        ensures { result ≡ self }
    {
        self.number
    }
}

/// Both values, or the lesser of the reasons.
pub fn both<A: Drop, B: Drop>(
    first: Result<A, Reason>,
    second: Result<B, Reason>,
) -> Result<(A, B), Reason>
    ensures { result ≡ first & second }
{
    match (first, second) {
        (Ok(a), Ok(b)) => Ok((a, b)),
        (Ok(_), Err(reason)) | (Err(reason), Ok(_)) => Err(reason),
        (Err(one), Err(other)) => Err(least(one, other)),
    }
}

/// The reason of the lesser number.
fn least(one: Reason, other: Reason) -> Reason
    ensures { result ≡ min one other }
{
    if other.number < one.number {
        other
    } else {
        one
    }
}
