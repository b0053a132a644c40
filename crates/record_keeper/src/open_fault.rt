//! Why a keeper isn't opened, or isn't read again.

/// Why there is no state.
#[derive(Clone, Copy, Debug, PartialEq, Eq)]
pub enum OpenFault {
    /// What it holds is no image of a book.
    Foreign,
    /// It failed; its count of faults has risen.
    DiskFault,
    /// There was no memory.
    Memory,
}
