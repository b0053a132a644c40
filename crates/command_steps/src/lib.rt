//! The steps of commands: create, update, delete and cancel, and the rollback behind a failure.
//! Each function answers the changes and entries of one case of `Command` in `step_relation`, or
//! why it is refused. None of them changes the state, asks a provider or writes.
#![tactic(auto)]

mod cancelling;
mod changes;
mod choice;
mod creating;
mod deleting;
mod draft;
mod due;
mod entries;
mod laying;
mod layout;
mod numbers;
mod order;
mod rolling_back;
mod updating;

pub use cancelling::cancel;
pub use creating::create;
pub use deleting::delete;
pub use due::{can_roll_back, is_due};
pub use rolling_back::{roll_back, roll_back_twice};
pub use step_parts::{
    begun_changes, begun_entries, call_entry, cause_at, draw_letters, ended_and_sent, failed_mark,
    failed_row, final_props, joined, letter_to, made_within, mail_entry, mark_failed, may_all_rise,
    may_rise, one, onward_changes, onward_entries, purged_changes, purged_entries, ready_row,
    released_changes, released_entries, rows_entry, sends, seq_of_one, two, with_first, with_last,
};
pub use step_reads::{freshness, job_at, resent, row_at};
pub use updating::update;
