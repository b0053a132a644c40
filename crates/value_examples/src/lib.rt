//! Values, names, numbers and plans from outside, sorted lists and small graphs: what is read and drawn, and
//! that each call succeeds with ample memory. There are tests alone here, of `heat_value`, `heat_plan`,
//! `keyed_table`, `dep_graph` and `traversal_graph`; nothing stands on this crate.
#![tactic(auto)]

#[cfg(test)]
mod cases;
#[cfg(test)]
mod loops;
#[cfg(test)]
mod orders;
#[cfg(test)]
mod plans;
#[cfg(test)]
mod ranks;
#[cfg(test)]
mod sorted;
#[cfg(test)]
mod traversals;
#[cfg(test)]
mod values;
