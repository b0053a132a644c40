//! Disks and journals: what crashes leave of worked bytes, what each failing call leaves, and real files.
//! There are tests alone here, of `heat_disk` and `row_journal`; nothing stands on this crate.
#![tactic(auto)]

#[cfg(test)]
mod disks;
#[cfg(test)]
mod images_of_bytes;
#[cfg(test)]
mod journals;
#[cfg(test)]
mod steps;
#[cfg(test)]
mod worked_bytes;
