//! Calls of a book that no script of the program makes: a look that others overtake and that is committed
//! late, the calls of a halted book, and an update over a judge that isn't the plan's. There are tests alone
//! here; what a script can say of a book is a scenario in `examples/`.
#![tactic(auto)]

#[cfg(test)]
mod asks;
#[cfg(test)]
mod books;
#[cfg(test)]
mod cases;
#[cfg(test)]
mod commits;
#[cfg(test)]
mod journals;
#[cfg(test)]
mod judges;
#[cfg(test)]
mod orders;
