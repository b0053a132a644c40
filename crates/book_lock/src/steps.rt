//! The lock's steps on its table, by kind. Each tells what it does to the seat, and keeps the rule.
mod draw;
mod join;
mod raise;
mod split;
mod take;

pub(crate) use draw::try_draw;
pub(crate) use join::merge;
pub(crate) use raise::raise;
pub(crate) use split::cut;
pub(crate) use take::try_take;
