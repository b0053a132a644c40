//! For each place of a text the longest of many keys that stands there, in time that grows with the keys' and the
//! text's bytes and not with how many keys begin alike.
#![tactic(auto)]

mod finder;
mod growing;
mod marking;
mod trie;
mod walking;

pub use finder::KeyFinder;
