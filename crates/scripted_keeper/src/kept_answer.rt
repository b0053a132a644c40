//! How the keeper's next call goes.

/// How one opening, append, reading or compaction goes.
#[derive(Clone, Copy, Debug, PartialEq, Eq)]
pub enum KeptAnswer {
    /// It works.
    Works,
    /// It fails, and the count of faults rises.
    Fails,
    /// An opening or a reading finds no image of a book; another call works.
    Foreign,
    /// A reading finds another state; another call works.
    Differs,
}
