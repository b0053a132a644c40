//! The disk as the layers above see it: two halves that are read, written, cut and synced, with what a
//! crash at any moment may leave of both. Beside the trait stand a disk in memory that can crash, a
//! fuse that stops at some call, and the adapter over real files. No call but `room` takes memory.
#![tactic(auto)]

mod bytes;
mod content;
mod disk;
mod file;
mod fuse;
mod half;
mod history;
mod memory;
mod memory_disk;
mod opened;

pub use disk::{Disk, DiskFailed};
pub use file::FileDisk;
pub use fuse::Fuse;
pub use half::Half;
pub use memory::MemDisk;
