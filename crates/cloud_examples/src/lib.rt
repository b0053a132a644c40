//! The scripted cloud, the simulated cloud's settings and its file as cases. There are tests alone here; nothing
//! stands on this crate.
#![tactic(auto)]

#[cfg(test)]
mod files;
#[cfg(test)]
mod fixtures;
#[cfg(test)]
mod scripts;
#[cfg(test)]
mod settings;
