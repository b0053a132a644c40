//! Templates that are admitted or refused, parameters that are bound or at fault, and plans of bodies, as
//! tables of what is given and what is to be told of it. There are tests alone here, of `hot_params`,
//! `hot_admit` and `template_plans`; nothing stands on this crate.
#![tactic(auto)]

#[cfg(test)]
mod admission;
#[cfg(test)]
mod admitting;
#[cfg(test)]
mod bindings;
#[cfg(test)]
mod cases;
#[cfg(test)]
mod conditions;
#[cfg(test)]
mod constraints;
#[cfg(test)]
mod given;
#[cfg(test)]
mod parameters;
#[cfg(test)]
mod plans;
#[cfg(test)]
mod refusals;
#[cfg(test)]
mod words;
