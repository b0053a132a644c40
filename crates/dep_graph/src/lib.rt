//! Graphs over numbered nodes: edges that are kept both ways, an order that respects them or a
//! cycle, edges that are refused where they would close a cycle, and the least node that is on a loop: one
//! search along all edges and one against them give ranks, and a node is searched from only where an edge
//! stays at its rank. It answers to the paths and cycles of `specs/Paths.antt` and to `IsOnLoop` of
//! `specs/Loops.antt`, and knows nothing of what its nodes stand for.
#![tactic(auto)]

mod closing;
mod edges;
mod least;
mod leaving;
mod listing;
mod marks;
mod ranking;
mod ready;
mod rising;
mod searching;
mod taking;

pub use closing::Added;
pub use edges::Graph;
pub use least::least_on_loop;
pub use listing::Order;
pub use marks::Marks;
pub use ranking::ranks;
pub use rising::{put_in, with_node};
