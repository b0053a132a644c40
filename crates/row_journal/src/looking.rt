//! What the bytes of both halves stand for, and how they end.
ghost use Rattle.std.specs.Prelude.{◌≡◌, ◌<◌, ◌+◌, ◌^◌, IfOk, IfSome, None, length, take};
ghost use Rattle.heat_disk.specs.Halves.{part};
ghost use Rattle.row_journal.specs.Images.{ImageData, IsImage};
ghost use Rattle.row_journal.specs.ShownImages.{image_of};
ghost use Rattle.row_journal.specs.Forms.{spelled};
ghost use Rattle.row_journal.specs.Places.{place_of};
ghost use Rattle.row_journal.specs.Found.{IsFound, EndsBy};

use crate::pending::pending;
use crate::place::Place;
use crate::{Image, Payload, Version, read_image};
use heat_disk::Half;
use std::alloc::{AllocError, Global};

/// How the live half ends.
#[derive(Clone, Copy, Debug, PartialEq, Eq)]
pub(crate) enum Ending {
    /// It is First, and has at most 9 bytes.
    Short,
    /// A gate byte 00 stands behind the last record.
    Closed,
    /// Another gate stands there, or nothing.
    Open,
}

/// An image as a journal takes it up.
#[derive(Debug, Drop)]
pub(crate) struct Found {
    pub place: Place,
    pub ending: Ending,
    pub pending: Option<Payload>,
    pub payloads: Vec<Payload>,
}

/// What these halves stand for; none exactly where they have no image.
pub(crate) fn look(alloc: Global, first: &[u8], second: &[u8]) -> Result<Option<Found>, AllocError>
    requires first { length first.now < 2 ^ 63 }
    requires second { length second.now < 2 ^ 63 }
    ensures found { IfOk result (λ o. IfSome o (IsFound (first.now, second.now))) }
    ensures none { IfOk result (λ o. o ≡ None →
        (image : ImageData) → ¬ IsImage (first.now, second.now) image) }
{
    match read_image(alloc, first, second)? {
        Some(image) => {
            let place = place_of(&image);
            let live = part(place.half, first, second);
            let ending = ending_of(place.half, live, place.end);
            let number = image.payloads.len() as u64 + 1;
            Ok(Some(Found {
                place,
                ending,
                pending: pending(alloc, live, place.end, place.version, number)?,
                payloads: image.payloads,
            }))
        }
        None => Ok(None),
    }
}

// What belongs to this half.
fn part<'a>(half: Half, first: &'a [u8], second: &'a [u8]) -> &'a [u8]
    ensures { result.now ≡ part half (first.now, second.now) }
{
    match half {
        Half::First => first,
        Half::Second => second,
    }
}

// How the bytes of the live half end.
fn ending_of(half: Half, live: &[u8], end: u64) -> Ending
    ensures { EndsBy half live.now end result }
{
    if half == Half::First && live.len() <= 9 {
        return Ending::Short;
    }
    if end < live.len() as u64 && live[end as usize] == 0 {
        return Ending::Closed;
    }
    Ending::Open
}

// Where the image stands on the disk.
fn place_of(image: &Image) -> Place
    requires fits { image.now.start + image.now.len < 2 ^ 64 }
    requires len { image.now.len ≡ length (spelled image.now.version 1 image.now.payloads.items) }
    ensures { result ≡ place_of (image_of image.now) }
{
    Place {
        half: image.half,
        version: image.version,
        epoch: image.epoch,
        start: image.start as u64,
        count: image.payloads.len() as u64,
        first_end: image.start as u64 + first_len(image.version, &image.payloads),
        end: (image.start + image.len) as u64,
    }
}

// How many bytes the first record takes; none where there is none.
fn first_len(version: Version, payloads: &[Payload]) -> u64
    ensures { result ≡ length (spelled version 1 (take 1 payloads.now)) }
{
    match payloads.first() {
        Some(payload) => {
            let len = payload.as_slice().len() as u64;
            match version {
                Version::One => len + 9,
                Version::Two => len + 17,
            }
        }
        None => 0,
    }
}
