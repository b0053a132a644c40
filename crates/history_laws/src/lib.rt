//! Laws of what a state holds but for its graphs, and of what its history tells of it: tables, chains of
//! rows, tokens, the cloud, and the way from soundness to the main theorem. Nothing here is run: each
//! function has an empty body and stands for its clause.
#![tactic(auto)]

pub mod agrees;
pub mod edges;
pub mod frames;
pub mod headline;
pub mod leaves;
pub mod links;
pub mod policies;
pub mod rows;
pub mod tables;
