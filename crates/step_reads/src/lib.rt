//! What the steps read of a state: an engine's next work, what a letter or a job is about, the rows
//! of a stack, who is told again, and what a node is given and gives. Nothing here changes the
//! state or decides what is written. Each function answers a word of step_relation.
#![tactic(auto)]

mod at_work;
mod chains;
mod current;
mod engines;
mod finishing;
mod given;
mod holders;
mod next;
mod nodes;
mod plans;
mod points;
mod resends;
mod standing;
mod targets;
mod work;

pub use at_work::{job_at, row_at};
pub use current::current_of;
pub use engines::{is_live, is_stopped};
pub use finishing::{all_done, ready_then, succs_of};
pub use given::{input_of, known, required};
pub use holders::holder;
pub use next::{Task, left, lowest, next_of};
pub use nodes::{is_done, is_open, is_ready, point_of};
pub use plans::item_of;
pub use points::points_passed;
pub use resends::resent;
pub use standing::rows_of;
pub use targets::target_of;
pub use work::{Fresh, Meant, Named, freshness, meaning, what_of};
