//! The bytes of a record, made in room that was taken before.
ghost use Rattle.std.specs.Prelude.{◌≡◌, ◌+◌, ◌≤◌, ◌<◌, ◌^◌, ◌++◌, [], ◌∷◌, length, OnOk};
ghost use Rattle.row_journal.specs.declared.version.Version.TheVariants.{Two};
ghost use Rattle.row_journal.specs.Forms.{body};
ghost use Rattle.row_journal.specs.Shown.{BufferData};

use std::alloc::{AllocError, Global};
use std::marker::Model;

/// Bytes of a record, in room that was made for them.
#[derive(Debug, Drop)]
pub(crate) struct Buffer {
    bytes: Vec<u8>,
}

impl Model for Buffer {
    ghost use Rattle.std.specs.Vec.{vec_capacity};
    ghost use Rattle.row_journal.specs.Shown.{BufferData};

    ghost Value = { BufferData };

    ghost view = { λ b. record { bytes = b.bytes.items; room = vec_capacity b.bytes } };
}

impl Buffer {
    /// A buffer without bytes or room.
    pub(crate) fn new(alloc: Global) -> Buffer {
        Buffer {
            bytes: Vec::new(alloc),
        }
    }

    /// The bytes that it has.
    pub(crate) fn as_slice(&self) -> &[u8]
        ensures { result.now ≡ self.now.bytes }
    {
        &self.bytes
    }

    /// Empties it, and makes room for so many bytes.
    pub(crate) fn reserve(&mut self, n: usize) -> Result<(), AllocError>
        ensures ok { OnOk result (n ≤ self.new.room) }
        ensures kept { self.old.room ≤ self.new.room }
    {
        self.bytes.clear();
        self.bytes.reserve(n)
    }

    /// Puts there what stands behind a record's gate in version 2, and a closed gate behind it.
    pub(crate) fn fill(&mut self, number: u64, payload: &[u8])
        requires { length payload.now + 17 ≤ self.old.room }
        ensures bytes { self.new.bytes ≡ body Two number payload.now ++ 0 ∷ [] }
        ensures room { self.old.room ≤ self.new.room }
    {
        self.bytes.clear();
        self.add(&(payload.len() as u64).to_be_bytes());
        self.add(&number.to_be_bytes());
        self.add(payload);
        self.add(&[0]);
    }

    // Puts bytes behind the others, within the room.
    fn add(&mut self, more: &[u8])
        requires { length self.old.bytes + length more.now ≤ self.old.room }
        ensures bytes { self.new.bytes ≡ self.old.bytes ++ more.now }
        ensures room { self.old.room ≤ self.new.room }
    {
        match self.bytes.extend_from_slice(more) {
            Ok(()) => {}
            Err(_) => unreachable!(),
        }
    }
}
