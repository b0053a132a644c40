//! Steps that no script of the program leads to: at numbers and keys that are worn out, and restarts; and
//! runs whose steps are asked for once more where memory was wanted. There are tests alone here; all other
//! lines of the steps' tables are scenarios in `examples/`. A state is made by the steps that lead to it.
#![tactic(auto)]

#[cfg(test)]
mod asks;
#[cfg(test)]
mod cases;
#[cfg(test)]
mod halt;
#[cfg(test)]
mod lines;
#[cfg(test)]
mod runs;
#[cfg(test)]
mod told;
#[cfg(test)]
mod wear;
#[cfg(test)]
mod worn;
