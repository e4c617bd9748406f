//! Tables of worked rows: what a row says, how the lines of a table are read, and what is said of an output that is not as a row
//! wants it.
#![tactic(auto)]

mod complaint;
mod frame;
mod row;
mod short;
mod table;

pub use complaint::{unless_counts, unless_ends, unless_has, unless_same};
pub use frame::framed;
pub use row::{Form, Row, Want};
pub use short::{ShortSink, ShortSource};
pub use table::{begins_row, take_line};
