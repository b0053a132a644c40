//! Definitions alone: every step of the engine, what a history says by itself, and what holds after each
//! step.
#![tactic(auto)]

pub use core_state::{
    Actor, Cause, Change, EngineChange, Entry, Graph, MailWrite, Numbers, Past, RowWrite, Stack,
    What, Why,
};
