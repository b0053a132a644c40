//! The graph of one traversal: an update node for each item, a clean-up node for each row that stood
//! before, and the edges of four sorts, of which one that would close a cycle is left out. It answers
//! to `specs/Builds.antt`, and knows nothing of what is done at a node.
#![tactic(auto)]

mod brief;
mod building;
mod candidates;
mod closing;
mod draft;
mod drawing;
mod fans;
mod laws;
mod lists;
mod numbered;
mod shape;

pub use brief::RowBrief;
pub use building::build;
pub use laws::{
    listed_items_have_an_order, listings_are_orders, needs_are_candidates, orders_are_listings,
    plans_keep_edges, replaced_are_candidates, required_are_candidates, rows_are_candidates,
};
pub use shape::{Node, TravGraph};
