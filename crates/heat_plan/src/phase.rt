//! What is being done, and how far it is: of a stack's traversal and of a resource row.

/// What is done. A rollback is a stack's alone: no row's act is that.
#[derive(Clone, Copy, Debug, PartialEq, Eq)]
pub enum Act {
    Init,
    Create,
    Update,
    Delete,
    Rollback,
}

/// How far it is.
#[derive(Clone, Copy, Debug, PartialEq, Eq)]
pub enum Status {
    Complete,
    InProgress,
    Failed,
}
