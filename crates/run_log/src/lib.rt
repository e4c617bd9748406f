//! Logs as texts: the writer and the reader of a log's text, and the writer of its JSON form.
//!
//! What was written is a prefix of the log's text, and the whole of it where nothing failed; what is read is the log of
//! exactly this text, in the version that the text's first line says, or of the beginning of such a text. Contracts see a log
//! as the list of its entries.
#![tactic(auto)]

mod beginning;
mod entries;
mod fault;
mod json;
mod json_fault;
mod json_rows;
mod read;
mod versions;
mod writer;

pub use beginning::{Beginning, may_be_headed, read_beginning};
pub use fault::LogFault;
pub use json::write_json;
pub use json_fault::JsonFault;
pub use json_rows::json_row;
pub use read::read_log;
pub use versions::{end_of, head_of, lines_before, version_of};
pub use writer::write_log;
