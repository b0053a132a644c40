//! What a few changes leave of a state, and forty calls of each table in both of its forms. There are tests
//! alone here, of `core_state`, `row_table`, `mail_table` and `sync_points`; nothing stands on this crate.
#![tactic(auto)]

#[cfg(test)]
mod mails;
#[cfg(test)]
mod parts;
#[cfg(test)]
mod points;
#[cfg(test)]
mod rows;
#[cfg(test)]
mod states;
