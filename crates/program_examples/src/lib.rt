//! Runs of the top call as the program makes it, over sources, sinks and keepers in memory; the words that the
//! program is called with; and the text of histories that no script leads to. There are tests alone here, of `converge_call`,
//! `report` and `headline_reader`; nothing stands on this crate.
#![tactic(auto)]

#[cfg(test)]
mod fixtures;
#[cfg(test)]
mod histories;
#[cfg(test)]
mod keepers;
#[cfg(test)]
mod outputs;
#[cfg(test)]
mod parts;
#[cfg(test)]
mod readings;
#[cfg(test)]
mod says;
#[cfg(test)]
mod streams;
#[cfg(test)]
mod words;
