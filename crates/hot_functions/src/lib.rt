//! The functions that stand in a template's values and conditions: the form of each argument, the
//! names in them, and references where none may stand. Each check answers one definition of specs/,
//! which gives the first flaw in reading order. Nothing is evaluated here.
#![tactic(auto)]

mod argument;
mod condition;
mod form;
mod place;
mod reference;
mod walk;

pub use argument::{has_form, stands};
pub use condition::is_condition;
pub use form::{Form, condition_form_of, form_of, lone};
pub use place::{Place, item_place, member_place};
pub use reference::reference_in;
pub use walk::{members_flaw, value_flaw};
