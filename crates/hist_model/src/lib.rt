//! Which histories are right: what the script wants next of the driver, what may come after a past, and which
//! histories are legal and whole. The definitions are for specs and proofs alone; no function here is called by a
//! program.
//!
//! The functions have empty bodies: each states laws of every legal history in its contract.
#![tactic(auto)]

mod chronicle;
mod current;
mod entries;
mod fences;
mod histories;
mod jobs;
mod moments;
mod open;
mod order;
mod phases;
mod postings;
mod progress;
mod readings;
mod refusals;
mod seats;
mod shutdown;
mod singly;
mod starts;
mod state;
mod ways;
mod whole;

pub use chronicle::Chronicle;
pub use current::the_current_action_moves_on;
pub use entries::{entries_are_bounded, entries_fit_their_types};
pub use fences::no_queue_passes_its_fence;
pub use histories::{legal_histories_grow, the_first_illegal_place_is_told};
pub use jobs::{claimed_items_are_done_or_held, holders_of_a_job_are_apart, job_entries_are_exact};
pub use moments::moments_and_orders_rise;
pub use open::{
    closed_is_as_before, guests_only_post, nothing_starts_once_shutdown_is_done,
    open_plans_are_never_stuck, workers_have_one_way_on,
};
pub use order::tasks_are_taken_in_order;
pub use phases::phases_never_go_back;
pub use postings::each_task_is_posted_once;
pub use progress::{every_way_ends_whole, legal_histories_can_go_on};
pub use readings::moments_never_fall;
pub use refusals::refusals_are_exact;
pub use seats::{
    legal_histories_are_consistent, own_entries_tell_the_seat, running_tasks_have_one_seat,
    seats_do_one_thing, takes_are_of_heads,
};
pub use shutdown::{shutdown_waits_and_forbids, shutdown_waits_and_forbids_over_the_log};
pub use singly::sequences_run_singly;
pub use starts::tasks_start_at_most_once;
pub use state::state_moves_along;
pub use ways::{
    each_seat_has_one_way_on, entries_are_judged_by_what_is_made,
    logs_are_told_by_seats_and_moments, the_way_on_is_allowed_when_due,
};
pub use whole::whole_logs_lose_nothing;
