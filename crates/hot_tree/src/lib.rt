//! A template's shape: `Template::from_value` takes a value that holds none of the flaws H01 to H24,
//! and else gives the first by the stated order, with its path. It answers to `specs/Whole.antt`, a
//! list of checks over the whole value. A template's parts by type, its parameters, conditions, resources
//! and outputs, are read off its object once (`specs/Parts.antt`); that reading is total: it asks nothing of
//! the object. Nothing is evaluated, and no parameter is bound: other layers do that.
#![tactic(auto)]

mod condition;
mod constraint;
mod fault;
mod functions;
mod out_part;
mod output;
mod param;
mod parts;
mod pass;
mod reading;
mod res;
mod resource;
mod template;
mod whole;

pub use constraint::Constraint;
pub use fault::HotFault;
pub use out_part::Out;
pub use param::Param;
pub use parts::Parts;
pub use res::Res;
pub use template::Template;
