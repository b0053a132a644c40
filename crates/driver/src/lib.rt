//! Turns of the live engines, one after another, round from the lowest number; and how many of them are
//! enough until nothing is left to do. It makes no step of its own: each is a turn of the book.
#![tactic(auto)]

mod jobs;
mod left;
mod letters;
mod next;
mod nodes;
mod ran;
mod rolls;
mod rounds;
mod rows;
mod stacks;

pub use book::{Book, Opened, StackCommand, Turn};
pub use left::work;
pub use ran::Ran;
pub use rounds::turns;
