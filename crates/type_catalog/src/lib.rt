//! Kinds, what a change of a resource's properties asks for, and what a program registers beside the
//! templates: kinds with a judge of their own, and the named tests that `custom_constraint` asks. The
//! closures are the caller's; what each may answer is kept beside it, and layers above rest on that fact
//! alone.
#![tactic(auto)]

mod changing;
mod custom;
mod effect;
mod judge;
mod kind;
mod naming;
mod registry;
mod shipped;

pub use changing::change_of;
pub use custom::{Ask, Custom, NamedTest};
pub use effect::Effect;
pub use judge::{Change, Judge};
pub use kind::{KindDef, PropDef};
pub use naming::named;
pub use registry::Registry;
pub use shipped::{box_kind, flavor_test, is_flavor, shipped_registry};
