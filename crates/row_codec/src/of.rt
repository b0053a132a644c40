//! Things of the crates below as they were read. A reader is an impl of another crate's trait, so it stands at
//! a type of this crate.
use std::marker::Model;

/// A thing that was read.
#[derive(Drop)]
pub(crate) struct Of<T> {
    pub(crate) thing: T,
}

impl<T> Model for Of<T> {
    ghost Value = { T };

    ghost view = { λ o. o.thing };
}
