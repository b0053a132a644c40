//! Laws of the graphs of stacks and of all that goes by them: letters, jobs, covered nodes, marks and rows;
//! and the groups put together. Nothing here is run: each function has an empty body and stands for its
//! clause.
#![tactic(auto)]

pub mod covers;
pub mod fits;
pub mod graphs;
pub mod jobs;
pub mod letters;
pub mod marks;
pub mod whole;
