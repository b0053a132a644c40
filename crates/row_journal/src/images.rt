//! The image of two halves.
ghost use Rattle.std.specs.Prelude.{◌≡◌, ◌↔◌, ◌<◌, Some, None, length};
ghost use Rattle.row_journal.specs.Forms.{journal_mark};
ghost use Rattle.row_journal.specs.declared.version.Version.{Version as version_type};
ghost use Rattle.row_journal.specs.Images.{HasHeader, live, Gives, IsImage};
ghost use Rattle.row_journal.specs.ShownImages.{Exactly, HasLength};

use crate::headers::{Header, read_header};
use crate::records::{Payload, read_records};
use crate::version::Version;
use heat_disk::Half;
use std::alloc::{AllocError, Global};

/// What two halves stand for.
#[derive(Debug, Drop)]
pub struct Image {
    /// The half from which it is read.
    pub half: Half,
    pub version: Version,
    /// 0 where no half is born.
    pub epoch: u64,
    /// The place in the half from which its records stand.
    pub start: usize,
    pub payloads: Vec<Payload>,
    /// How many bytes the records take.
    pub len: usize,
}

/// The image of both halves; none exactly where they have none.
pub fn read_image(alloc: Global, first: &[u8], second: &[u8]) -> Result<Option<Image>, AllocError>
    ensures image { Exactly (IsImage (first.now, second.now)) result }
    ensures len { HasLength result }
{
    let of_first = read_header(first);
    let of_second = read_header(second);
    match live(of_first, of_second) {
        Half::First => half_image(alloc, Half::First, of_first, first),
        Half::Second => half_image(alloc, Half::Second, of_second, second),
    }
}

// The born half with the greater epoch; First where they are equal, and where none is born.
fn live(first: Option<Header>, second: Option<Header>) -> Half
    ensures { result ≡ live first second }
{
    match (first, second) {
        (None, Some(_)) => Half::Second,
        (Some(a), Some(b)) if a.epoch < b.epoch => Half::Second,
        _ => Half::First,
    }
}

// The image of the live half, by the header with which it was born.
fn half_image(
    alloc: Global,
    half: Half,
    header: Option<Header>,
    bytes: &[u8],
) -> Result<Option<Image>, AllocError>
    requires { HasHeader bytes.now header }
    ensures image { Exactly (Gives half bytes.now header) result }
    ensures len { HasLength result }
{
    match header {
        Some(header) => born_image(alloc, half, header, bytes),
        None => plain_image(alloc, half, bytes),
    }
}

// What the records behind a snapshot's header stand for, if they are any.
fn born_image(
    alloc: Global,
    half: Half,
    header: Header,
    bytes: &[u8],
) -> Result<Option<Image>, AllocError>
    requires { 17 < length bytes.now }
    ensures image { Exactly (Gives half bytes.now (Some header)) result }
    ensures len { HasLength result }
{
    match read_records(alloc, &bytes[16..], header.version)? {
        Some(read) => Ok(Some(Image {
            half,
            version: header.version,
            epoch: header.epoch,
            start: 16,
            payloads: read.payloads,
            len: read.len,
        })),
        None => Ok(None),
    }
}

// What a half stands for that no snapshot has begun.
fn plain_image(alloc: Global, half: Half, bytes: &[u8]) -> Result<Option<Image>, AllocError>
    ensures image { Exactly (Gives half bytes.now None) result }
    ensures len { HasLength result }
{
    if bytes.len() <= 9 {
        return Ok(Some(marked_image(half, Version::Two, Vec::new(alloc), 0)));
    }
    match journal_version(&bytes[..8]) {
        Some(version) => match read_records(alloc, &bytes[8..], version)? {
            Some(read) => Ok(Some(marked_image(half, version, read.payloads, read.len))),
            None => Ok(None),
        },
        None => Ok(None),
    }
}

// The image of records behind a mark, without a snapshot.
fn marked_image(half: Half, version: Version, payloads: Vec<Payload>, len: usize) -> Image
    ensures { result ≡ record {
      half = half;
      version = version;
      epoch = 0;
      start = 8;
      payloads = payloads;
      len = len;
    } }
{
    Image {
        half,
        version,
        epoch: 0,
        start: 8,
        payloads,
        len,
    }
}

// The version that a journal's first bytes tell.
fn journal_version(mark: &[u8]) -> Option<Version>
    ensures { (v : version_type) → (result ≡ Some v) ↔ (mark.now ≡ journal_mark v) }
{
    if mark == b"HEATJ001".as_slice() {
        Some(Version::One)
    } else if mark == b"HEATJ002".as_slice() {
        Some(Version::Two)
    } else {
        None
    }
}
