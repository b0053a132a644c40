//! The words of evaluation: what is read, the functions, the codes of faults and where they stand. What
//! values, conditions and the properties of a plan's items come to is in specs/; nothing here evaluates.
#![tactic(auto)]

mod code;
mod fault;
mod function;
mod manner;
mod scene;
mod so_far;
mod valued_conds;

pub use code::FaultCode;
pub use fault::{EvalFault, FunctionFault};
pub use function::Function;
pub use manner::Manner;
pub use scene::Scene;
pub use valued_conds::ValuedConds;
