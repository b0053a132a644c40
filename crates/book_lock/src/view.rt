//! What the lock's rule knows of each pass. No value of these types is made.
use std::collections::LinkedList;

/// Where a pass is in the queue.
pub enum Role {
    Idle,
    Waits(u64),
    Holds(u64),
}

/// Seen and Mine: the value as it was last held, and the places of its list that the releases added.
pub struct Account<T> {
    pub last: Option<T>,
    pub places: LinkedList<u64>,
}

/// A pass that is in use: its own account, and those of the passes that were joined to it.
pub struct Stand<T> {
    pub role: Role,
    pub name: LinkedList<bool>,
    /// The value that the lock was opened with.
    pub opening: Option<T>,
    pub own: Account<T>,
    pub joined: LinkedList<Account<T>>,
}

/// A pass that was joined to another is spent.
pub enum View<T> {
    Spent,
    Live(Stand<T>),
}
