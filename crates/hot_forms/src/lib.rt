//! What is wrong with a template's sections and parameters, and where. Each check answers one
//! definition of specs/, which gives the first flaw by the stated order; no check changes or keeps
//! anything. `sections_flaw` is H02 to H06, `parameter_flaw` H07 to H12.
#![tactic(auto)]

mod argument;
mod check;
mod code;
mod constraint;
mod flaw;
mod name;
mod parameter;
mod rule;
mod sections;
mod shape;
mod sort;

pub use argument::is_argument;
pub use check::{is_among, under_key, under_name, under_place, unknown_key, unless};
pub use code::HotCode;
pub use flaw::Flaw;
pub use name::{is_name, misnamed};
pub use parameter::parameter_flaw;
pub use rule::{Rule, rule_of};
pub use sections::{section, sections_flaw};
pub use shape::{Shape, found, is_object, is_text, misshapen};
pub use sort::{Sort, sort_in, sort_named};
