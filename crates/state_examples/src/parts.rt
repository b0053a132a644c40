//! Numbers and names: stacks and resources have names of one letter. One that is none fails as if memory were
//! wanted.
use heat_plan::{EngineNo, LetterNo, ResName, RowNo, StackName, TravNo};
use std::alloc::{AllocError, Global};
use std::process::Abort;

/// An engine's number.
pub(crate) fn engine_no(no: u64) -> Result<EngineNo, AllocError> {
    EngineNo::new(no).ok_or(AllocError)
}

/// A row's number.
pub(crate) fn row_no(no: u64) -> Result<RowNo, AllocError> {
    RowNo::new(no).ok_or(AllocError)
}

/// A letter's number.
pub(crate) fn letter_no(no: u64) -> Result<LetterNo, AllocError> {
    LetterNo::new(no).ok_or(AllocError)
}

/// A traversal's number.
pub(crate) fn trav_no(no: u64) -> Result<TravNo, AllocError> {
    TravNo::new(no).ok_or(AllocError)
}

/// A stack's name.
pub(crate) fn stack_name(alloc: Global, letter: u8) -> Result<StackName, AllocError> {
    StackName::read(alloc, &[letter])?.ok_or(AllocError)
}

/// A resource's name.
pub(crate) fn res_name(alloc: Global, letter: u8) -> Result<ResName, AllocError> {
    ResName::read(alloc, &[letter])?.ok_or(AllocError)
}

/// Adds a number and a space.
pub(crate) fn add(alloc: Global, text: &mut String, number: u64) -> Result<(), AllocError> {
    text.push_str(format!(in alloc; "{number} ")?.as_str())
}

/// That this is told.
pub(crate) fn same(rt: &impl Abort, told: &str, wanted: &str) {
    assert!(rt; told == wanted, "{told}");
}
