//! Why no image was read.
ghost use Rattle.std.specs.Prelude.{◌≡◌};
ghost use Rattle.row_journal.specs.declared.fault.ReadFault.TheVariants.{Memory, Disk};

use heat_disk::DiskFailed;
use std::alloc::AllocError;

/// Why nothing was read.
#[derive(Clone, Copy, Debug, PartialEq, Eq)]
pub enum ReadFault {
    /// No image stands there.
    Foreign,
    /// The disk failed.
    Disk,
    /// There was no memory.
    Memory,
}

impl From<AllocError> for ReadFault {
    ghost from_gives = { λ _ fault. fault ≡ Memory };

    fn from(_: AllocError) -> Self {
        ReadFault::Memory
    }
}

impl From<DiskFailed> for ReadFault {
    ghost from_gives = { λ _ fault. fault ≡ Disk };

    fn from(_: DiskFailed) -> Self {
        ReadFault::Disk
    }
}
