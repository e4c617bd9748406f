//! Replies: lines that name for a task another one, which it posts after all its other steps, and the script that they
//! make of a script.
//!
//! A reply is Chromium's `PostTaskAndReply` in this profile. There the reply goes back to the sequence that posted the
//! task; here its line names the runner or the main queue. It gets no value of the task.
#![tactic(auto)]

mod elaboration;
mod fault;
mod held;
mod laws;
mod marks;
mod read;
mod reason;
mod reply;
mod sums;
mod words;

pub use elaboration::elaborate;
pub use fault::ReplyFault;
pub use laws::{
    elaborated_scripts_are_unique, replies_are_posted_last, replies_start_after_their_post,
    tasks_end_after_their_replies,
};
pub use reply::{Home, Reply};
