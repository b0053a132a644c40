//! The points at which a graph's nodes wait: each keeps the inputs that its node was given, and whether
//! the node is done. `Points` is what those above see of one stack's points, over their list; `ListPoints`
//! reads the list from end to end, and `SyncPoints` finds a node's point at its place and counts the edges
//! that have no input yet. Nothing here knows who gives an input or what a full point brings about. It
//! answers to `specs/Points.antt`.
#![tactic(auto)]

mod counted;
mod list_points;
mod node_points;
mod ops;
mod point;
mod points;
mod run;
mod shared_input;
mod sync_point;
mod table;

pub use list_points::ListPoints;
pub use node_points::NodePoints;
pub use ops::{PointAnswer, PointOp};
pub use point::{Input, Point};
pub use points::Points;
pub use run::run_points;
pub use shared_input::SharedInput;
pub use sync_point::{Gathered, SyncPoint};
pub use table::SyncPoints;
