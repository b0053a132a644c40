//! What an opening of a journal answers, and a look at one.
ghost use Rattle.std.specs.Prelude.{◌≡◌};

use crate::Payload;
use crate::journal::Journal;
use heat_disk::Disk;

/// What became of a disk.
#[derive(Drop)]
pub enum Recovered<D: Disk> {
    /// Its journal, and the payloads of its image.
    Opened(Journal<D>, Vec<Payload>),
    /// It has no image.
    Foreign(D),
    /// It failed.
    DiskFault(D),
    /// There was no memory. Nothing was written.
    Memory(D),
}

/// What a disk reads as.
#[derive(Drop)]
pub enum Imaged {
    /// The payloads of its image.
    Payloads(Vec<Payload>),
    /// It has no image.
    Foreign,
    /// It failed.
    DiskFault,
    /// There was no memory.
    Memory,
}
