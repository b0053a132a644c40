//! What values with functions come to: the value, or the first fault with its place, and the properties
//! of a plan's items. Each evaluation counts what it costs and ends where that is too much.
#![tactic(auto)]

mod answering;
mod branches;
mod choices;
mod conditions;
mod depth;
mod evaluation;
mod fillings;
mod functions;
mod gathered;
mod lists;
mod looked;
mod lookups;
mod maps;
mod names;
mod needs;
mod placing;
mod replacing;
mod resolving;
mod seen;
mod setting;
mod sorts;
mod stock;
mod sum;
mod texts;
mod walk;

pub use conditions::{Tried, flag_of, flag_or_missed};
pub use eval_words::{EvalFault, FaultCode, Function, FunctionFault, Manner, Scene, ValuedConds};
pub use needs::{needs_of, needs_of_props, references_under, referred};
pub use resolving::{eval, looked_up, resolve};
pub use sorts::{list_in, text_in};
