//! What changes ask for, what a program registers, catalogues and the parts of templates as cases from outside.
//! There are tests alone here; nothing stands on this crate.
#![tactic(auto)]

#[cfg(test)]
mod cases;
#[cfg(test)]
mod catalogs;
#[cfg(test)]
mod changes;
#[cfg(test)]
mod parts;
#[cfg(test)]
mod registry;
