//! The environment that stands beside a template: parameters and defaults for it, and other names for the types of its
//! resources. `Env::read` takes an environment that has none of the flaws V01 and V02, and else gives the first
//! (`specs/Checks.antt`); `Env::given` and `Env::template` apply it (`specs/Environments.antt`, `specs/Applied.antt`).
//! Nothing is evaluated, and no parameter is bound: other layers do that.
#![tactic(auto)]

mod applying;
mod checking;
mod code;
mod defaults;
mod env;
mod fault;
mod flaw;
mod renames;

pub use code::EnvCode;
pub use env::Env;
pub use fault::EnvFault;
pub use flaw::EnvFlaw;
