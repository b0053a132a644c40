//! The records of a half, read in order up to the first gate that isn't open.
ghost use Rattle.std.specs.Prelude.{◌≡◌, ◌≢◌, ◌++◌, ◌∷◌, List, ℕ, IfOk, IfSome, None, length};
ghost use Rattle.row_journal.specs.Forms.{body, spelled, IsEnd, IsSized, AreRecords};

use crate::version::Version;
use crate::word::{behind_number, first_number};
use std::alloc::{AllocError, Global};
use std::marker::Model;

/// What a record keeps.
#[derive(Debug, Drop)]
pub struct Payload {
    bytes: Vec<u8>,
}

impl Model for Payload {
    ghost use Rattle.std.specs.Prelude.{List, ℕ};

    ghost Value = { List ℕ };

    ghost view = { λ p. p.bytes.items };
}

impl Payload {
    /// The payload of these bytes.
    pub fn from_slice(alloc: Global, bytes: &[u8]) -> Result<Payload, AllocError>
        ensures { IfOk result (λ p. p ≡ bytes.now) }
    {
        Ok(Payload {
            bytes: Vec::from_slice(alloc, bytes)?,
        })
    }

    /// Its bytes.
    pub fn as_slice(&self) -> &[u8]
        ensures { result.now ≡ self.now }
    {
        &self.bytes
    }
}

/// Records that were read, and how many bytes they take.
#[derive(Debug, Drop)]
pub struct Records {
    pub payloads: Vec<Payload>,
    pub len: usize,
}

/// Reads records from the front on, of which the first has the number 1. None exactly where a length,
/// number or payload behind an open gate passes the end, or a number isn't its record's place.
pub fn read_records(
    alloc: Global,
    bytes: &[u8],
    version: Version,
) -> Result<Option<Records>, AllocError>
    ensures read { IfOk result (λ found. IfSome found
        (λ r. AreRecords version 1 bytes.now r.payloads.items)) }
    ensures len { IfOk result (λ found. IfSome found
        (λ r. r.len ≡ length (spelled version 1 r.payloads.items))) }
    ensures none { IfOk result (λ found. found ≡ None →
        (payloads : List (List ℕ)) → ¬ AreRecords version 1 bytes.now payloads) }
{
    let mut payloads = Vec::new(alloc);
    let mut rest = bytes;
    while let Some(behind) = behind_gate(rest) {
        match first_payload(behind, version, payloads.len() as u64 + 1) {
            Some((payload, later)) => {
                payloads.push(Payload::from_slice(alloc, payload)?)?;
                rest = later;
            }
            None => return Ok(None),
        }
    }
    let len = bytes.len() - rest.len();
    Ok(Some(Records { payloads, len }))
}

// What stands behind an open gate; none where no open gate stands in front.
fn behind_gate(bytes: &[u8]) -> Option<&[u8]>
    ensures some { IfSome result (λ rest. bytes.now ≡ 1 ∷ rest.now) }
    ensures none { result ≡ None → IsEnd bytes.now }
{
    match bytes {
        [1, rest @ ..] => Some(rest),
        _ => None,
    }
}

/// The payload behind an open gate, and what stands behind it.
pub(crate) fn first_payload(bytes: &[u8], version: Version, place: u64) -> Option<(&[u8], &[u8])>
    ensures some { IfSome result (λ r. bytes.now ≡ body version place r.0.now ++ r.1.now) }
    ensures sized { IfSome result (λ r. IsSized r.0.now) }
    ensures none { result ≡ None → (payload rest : List ℕ) → IsSized payload →
        bytes.now ≢ body version place payload ++ rest }
{
    let (len, behind) = first_number(bytes)?;
    let rest = match version {
        Version::One => behind,
        Version::Two => behind_number(behind, place)?,
    };
    if (rest.len() as u64) < len {
        return None;
    }
    Some(rest.split_at(len as usize))
}
