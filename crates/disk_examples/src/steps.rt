//! Steps of a journal, and what is read of one.
use heat_disk::Disk;
use row_journal::{Journal, Payload};
use std::alloc::{AllocError, Global};

/// The payloads, each with a stop behind it.
pub(crate) fn text_of(alloc: Global, payloads: &[Payload]) -> Result<Vec<u8>, AllocError> {
    let mut text = Vec::new(alloc);
    for payload in payloads {
        text.extend_from_slice(payload.as_slice())?;
        text.push(b'.')?;
    }
    Ok(text)
}

/// Adds a record, and says whether the disk took it.
pub(crate) fn adds<D: Disk>(journal: &mut Journal<D>, bytes: &[u8]) -> Result<bool, AllocError> {
    if journal.has_failed() || journal.version() != 2 {
        return Ok(false);
    }
    journal.reserve(bytes.len())?;
    Ok(journal.append(bytes).is_ok())
}

/// Makes a snapshot, and says whether the disk took it.
pub(crate) fn snaps<D: Disk>(journal: &mut Journal<D>, bytes: &[u8]) -> Result<bool, AllocError> {
    if journal.has_failed() || !journal.can_snapshot() {
        return Ok(false);
    }
    journal.reserve_snapshot(bytes.len())?;
    Ok(journal.snapshot(bytes).is_ok())
}
