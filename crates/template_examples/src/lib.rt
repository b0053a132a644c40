//! Templates, their functions and the lines of a script, as tables of what is given and what is to be told of
//! it. There are tests alone here, of `hot_strings`, `hot_forms`, `hot_functions`, `hot_tree`, `hot_eval` and
//! `script_lines`; nothing stands on this crate.
#![tactic(auto)]

#[cfg(test)]
mod cases;
#[cfg(test)]
mod choices;
#[cfg(test)]
mod evaluation;
#[cfg(test)]
mod forms;
#[cfg(test)]
mod functions;
#[cfg(test)]
mod limits;
#[cfg(test)]
mod lines;
#[cfg(test)]
mod plans;
#[cfg(test)]
mod resolving;
#[cfg(test)]
mod sizes;
#[cfg(test)]
mod strings;
#[cfg(test)]
mod trees;
