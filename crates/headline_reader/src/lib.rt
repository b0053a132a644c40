//! A plain, slow reading of a history: the words of the main theorem, computed on a list of entries that
//! begins with nothing standing and nothing alive. It is what a reader trusts the definitions of
//! step_relation by; nothing here is fast, decides a step, or asks a cloud. Its contracts are those definitions.
#![tactic(auto)]

mod after;
mod causes;
mod certain;
mod fitting;
mod items;
mod living;
mod marks;
mod needed;
mod possible;
mod releases;
mod rows;
mod states;
mod traversal;

pub use fitting::fits;
pub use living::Living;
pub use marks::{Mark, mark_of};
pub use releases::released;
pub use rows::stored;
pub use states::could;
pub use traversal::{Latest, newest};
