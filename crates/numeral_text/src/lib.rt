//! Numbers that stand in a text as decimal digits: whether a word is a numeral, and which number it writes, also with zeros in
//! front; and the number whose text, without zeros in front, a word is.
#![tactic(auto)]

mod number;
mod numeral;

pub use number::{number_8, number_32, number_64};
pub use numeral::{is_numeral, value_of};
