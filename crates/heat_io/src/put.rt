//! Writing all of a text.
ghost use Rattle.std.specs.Prelude.{◌≡◌, ◌≤◌, ◌++◌, ℕ, List, OnOk, IsErrOf};
ghost use Rattle.heat_value.specs.Counts.{Rose};
ghost use Rattle.heat_io.specs.Streams.{grown};

use crate::sink::{Put, Sink};
use thiserror::Error;

/// Why not all was written.
#[derive(Clone, Copy, Debug, Error, PartialEq, Eq)]
pub enum PutFault {
    /// A write failed. The sink's count of faults has risen.
    #[error("a write failed")]
    WriteFault,
    /// There was no memory.
    #[error("out of memory")]
    Memory,
}

/// Writes all of the bytes. A fault leaves the first of them written.
pub fn put_all<K: Sink>(sink: &mut K, bytes: &[u8]) -> Result<(), PutFault>
    ensures all { OnOk result (K.holds sink.new ≡ grown (K.holds sink.old) bytes.now) }
    ensures first { (written rest : List ℕ) × (bytes.now ≡ written ++ rest)
        × (K.holds sink.new ≡ grown (K.holds sink.old) written) }
    ensures later { K.faults sink.old ≤ K.faults sink.new }
    ensures cause { IsErrOf result PutFault.WriteFault →
        Rose (K.faults sink.old) (K.faults sink.new) }
{
    let mut rest = bytes;
    while !rest.is_empty() {
        match sink.write(rest) {
            Put::Took(count) => rest = &rest[count..],
            Put::Failed => return Err(PutFault::WriteFault),
            Put::Memory => return Err(PutFault::Memory),
        }
    }
    Ok(())
}
