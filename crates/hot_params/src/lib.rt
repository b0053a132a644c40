//! A template's parameters: `bind` gives each its value and adds the pseudo parameters, or gives the
//! first of P01 to P06 by the stated order, with its path. It answers to `specs/Bound.antt`. Nothing of
//! the template is evaluated; what a custom constraint asks is told by the registry.
#![tactic(auto)]

mod binding;
mod bound;
mod code;
mod constraint;
mod conversion;
mod fault;
mod identity;
mod ids;
mod listing;
mod parameter;
mod pattern;
mod saying;
mod size;
mod strings;
mod values;

pub use binding::bind;
pub use bound::Bound;
pub use code::ParamCode;
pub use fault::{ParamFault, ParamFlaw};
pub use ids::Ids;
