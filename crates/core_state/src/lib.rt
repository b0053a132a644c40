//! The engine's state, its changes, and the history that a step adds to. A state is tables that are read
//! by keys; it changes only by lists of changes. Nothing here decides what a step does, asks a provider
//! or writes. It answers to `specs/State.antt`, `Changes.antt` and `Applies.antt`.
#![tactic(auto)]

mod apply_fault;
mod applying;
mod batch;
mod change;
mod entry;
mod forecast;
mod graph;
mod made;
mod numbers;
mod past;
mod point_write;
mod ready;
mod shared_plan;
mod stack;
mod state;
mod state_equality;

pub use apply_fault::ApplyFault;
pub use batch::Batch;
pub use change::Change;
pub use entry::{Actor, Cause, EngineChange, Entry, MailWrite, RowWrite, ShowWhat, What, Why};
pub use forecast::{Fore, Forecast, Foretold, Going};
pub use graph::Graph;
pub use keyed_table::Roomed;
pub use made::Made;
pub use mail_table::{Job, Letter, Stage};
pub use numbers::{Next, Numbers};
pub use past::Past;
pub use ready::{Ready, ready_all};
pub use row_table::Row;
pub use shared_plan::SharedPlan;
pub use stack::Stack;
pub use state::State;
pub use sync_points::{Input, Point, SharedInput};
pub use traversal_graph::{Node, TravGraph};
