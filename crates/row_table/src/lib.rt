//! The rows of resources: what the engine remembers of each thing that it asked for, and their table. A
//! row says what was last done; nothing here decides what is done next. `Rows` is what those above see of
//! the table, over the list of the rows; `ListRows` reads the list from end to end, and `RowTable` finds
//! each row by sorted vectors. It answers to `specs/Found.antt` and `Locks.antt`.
#![tactic(auto)]

mod by_name;
mod by_stack;
mod chain;
mod current;
mod hold;
mod keys;
mod list_rows;
mod ops;
mod row;
mod rows;
mod run;
mod table;

pub use list_rows::ListRows;
pub use ops::{RowAnswer, RowOp};
pub use row::Row;
pub use rows::Rows;
pub use run::run_rows;
pub use table::RowTable;
