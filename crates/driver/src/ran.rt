//! How a run of turns ended.

/// How a run of turns ended, and after how many.
#[derive(Clone, Copy, Debug, PartialEq, Eq)]
pub enum Ran {
    /// The book was idle.
    Idle(u128),
    /// The turns were made, and the book isn't idle.
    Tired(u128),
    /// A number or a key would have come to 2^62.
    Worn,
    /// The keeper failed, and the book is halted.
    DiskFault,
    /// There was no memory.
    Memory,
}
