//! The report: the text that a history adds up to, for whoever reads the program's output. It is a fold
//! over the opening state and the entries, and knows nothing of the lines of a script. Nothing here
//! changes a state or writes. It answers to `told` and `text_after` of specs/Text.antt.
#![tactic(auto)]

mod brief;
mod entries;
mod laws;
mod log;
mod output_line;
mod outputs;
mod previews;
mod report;
mod rows;
mod seen;
mod stacks;
mod tell;
mod words;

pub use laws::{seen_row_is_current, text_is_parted};
pub use report::{Reporter, lines_of};
