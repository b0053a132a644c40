//! The kinds that a program knows: those of the registry, and those that lines of a script define.
//! `Catalog::read` takes a catalogue's value or gives the path of its first fault by the stated order; a
//! refused value changes nothing. It answers to `specs/Flaws.antt` and `specs/Catalogs.antt`.
#![tactic(auto)]

mod attributes;
mod catalog;
mod check;
mod count;
mod definition;
mod fault;
mod flaw;
mod kinds;
mod properties;
mod shape;

pub use catalog::Catalog;
pub use check::{behind_key, behind_name, behind_place, here_unless};
pub use fault::CatalogFault;
