//! Natural numbers as long as they need to be: sums of them, and their decimal text.
//!
//! Contracts see a number as a natural number.
#![tactic(auto)]

mod decimal;
mod limbs;
mod natural;

pub use decimal::decimal_text_is_of_its_number;
pub use natural::Natural;
