//! What the steps of all sorts are made of: the forms that a step gives to rows, jobs, stacks and letters,
//! the changes and entries that several steps share, and whether a number or a key is worn out. Nothing
//! here reads a table or decides what is next. It answers to `Rows`, `Writes`, `Begins`, `Cleanups` and
//! `Takes` in `step_relation`.
#![tactic(auto)]

mod begun_rows;
mod entries;
mod jobs;
mod joining;
mod letters;
mod lists;
mod locks;
mod marks;
mod moves;
mod new_rows;
mod purges;
mod releases;
mod rooms;
mod rows;
mod wear;

pub use begun_rows::{created_row, deleted_row, final_props, ready_row, same_row, updated_row};
pub use entries::{call_entry, mail_entry, rows_entry};
pub use jobs::{job_of, moved_job, with_stage};
pub use joining::joined;
pub use letters::{draw_letters, letter_to, letters_to, past_letters, sends, sent_all};
pub use lists::{one, seq_of_one, seq_of_two, three, two, with_first, with_last};
pub use locks::{lock, lock_writes, unlock, unlock_writes};
pub use marks::{cause_at, complete_mark, failed_mark, mark_complete, mark_failed};
pub use moves::{
    begun_changes, begun_entries, left_changes, left_entries, onward_changes, onward_entries,
};
pub use new_rows::{new_row, replacement};
pub use purges::{purged_changes, purged_entries};
pub use releases::{ended_and_sent, released_changes, released_entries};
pub use rooms::{has_room, may_all_rise, may_rise};
pub use rows::{failed_row, locked, replaced, token_of, unlocked};
pub use wear::{is_worn, made_within};
