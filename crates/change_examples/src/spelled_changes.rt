//! Changes by their bytes.
use core_state::{Batch, Change};
use row_codec::read;
use std::alloc::{AllocError, Global};

/// The changes that the bytes spell; where they spell none, it fails as if memory were wanted.
pub fn changes_at(alloc: Global, bytes: &[u8]) -> Result<Batch<Change>, AllocError> {
    let mut changes = Batch::new(alloc);
    for change in read(alloc, bytes)?.ok_or(AllocError)? {
        changes.push(change)?;
    }
    Ok(changes)
}
