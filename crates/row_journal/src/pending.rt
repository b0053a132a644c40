//! The record behind an image whose gate was torn.
ghost use Rattle.std.specs.Prelude.{◌≡◌, ◌↔◌, IfOk, IsTrue, drop};
ghost use Rattle.row_journal.specs.Ends.{IsClosed};
ghost use Rattle.row_journal.specs.Pending.{IsThe, IsWhole, StandsBehind};

use crate::records::{Payload, first_payload};
use crate::version::Version;
use std::alloc::{AllocError, Global};

/// What stands whole behind a gate that isn't closed, at this place of a half, as the record of this number; none
/// exactly where nothing does.
pub(crate) fn pending(
    alloc: Global,
    live: &[u8],
    end: u64,
    version: Version,
    number: u64,
) -> Result<Option<Payload>, AllocError>
    ensures { IfOk result (IsThe (StandsBehind version number (drop end live.now))) }
{
    match behind(live, end) {
        [gate, record_bytes @ ..] if *gate != 0 => whole(alloc, record_bytes, version, number),
        _ => Ok(None),
    }
}

// What stands from this place on.
fn behind(live: &[u8], end: u64) -> &[u8]
    ensures { result.now ≡ drop end live.now }
{
    if end < live.len() as u64 {
        &live[end as usize..]
    } else {
        &[]
    }
}

// The record in front, whole but for its gate, where a byte 00 stands behind it.
fn whole(
    alloc: Global,
    bytes: &[u8],
    version: Version,
    number: u64,
) -> Result<Option<Payload>, AllocError>
    ensures { IfOk result (IsThe (IsWhole version number bytes.now)) }
{
    let Some((payload, rest)) = first_payload(bytes, version, number) else {
        return Ok(None);
    };
    if !is_closed(rest) {
        return Ok(None);
    }
    Ok(Some(Payload::from_slice(alloc, payload)?))
}

// Whether a byte 00 stands in front.
fn is_closed(bytes: &[u8]) -> bool
    ensures { IsTrue result ↔ IsClosed bytes.now }
{
    match bytes {
        [gate, ..] => *gate == 0,
        [] => false,
    }
}
