//! Groups of a template: resources that stand for so many members, each by one definition. `resources_flaw` gives the
//! first of their flaws G01 and G02 (`specs/Checks.antt`), and `plain` the plain template that a template with groups
//! means (`specs/Plain.antt`). Nothing is evaluated here but a group's count.
#![tactic(auto)]

mod checking;
mod code;
mod counting;
mod expanding;
mod fault;
mod flaw;
mod forms;
mod listing;
mod meaning;
mod numbering;
mod numbers;
mod paths;
mod reading;
mod reference;
mod rewriting;

pub use checking::resources_flaw;
pub use code::GroupCode;
pub use fault::GroupFault;
pub use flaw::GroupFlaw;
pub use meaning::plain;
