//! Where bytes are put one behind another: a sheet counts all of them, and keeps those that it has room for.
ghost use Rattle.std.specs.Prelude.{◌≡◌, ◌≤◌, ◌^◌, ◌-◌, [], ◌∷◌, min, length, OnOk, OnErr, IfOk};
ghost use Rattle.plan_codec.specs.Sheets.{behind, blank};

use std::alloc::{AllocError, Global};
use std::marker::Model;

/// Bytes in the order in which they were put. What passes the room is counted and not kept, so that a sheet
/// without room tells how much room is wanted. Putting takes no memory.
#[derive(Debug, Drop)]
pub struct Sheet {
    kept: Vec<u8>,
    room: usize,
    count: usize,
}

impl Model for Sheet {
    ghost use Rattle.std.specs.Prelude.{◌≤◌, length};
    ghost use Rattle.std.specs.Vec.{vec_len, vec_capacity};
    ghost use Rattle.plan_codec.specs.Sheets.{SheetData};

    ghost Value = { SheetData };

    ghost view = { λ s. record { kept = s.kept.items; room = s.room; count = s.count } };

    ghost invariant = { λ s. (length s.kept.items ≤ s.room) × (s.room ≤ vec_capacity s.kept) };
}

impl Sheet {
    /// A sheet with no room, which counts alone.
    pub fn new(alloc: Global) -> Sheet
        ensures { result ≡ blank 0 }
    {
        Sheet {
            kept: Vec::new(alloc),
            room: 0,
            count: 0,
        }
    }

    /// Nothing stands on it any more.
    pub fn clear(&mut self)
        ensures { self.new ≡ blank self.old.room }
    {
        self.kept.clear();
        self.count = 0;
    }

    /// Makes room for so many bytes in all; without memory it stays as it was.
    pub fn reserve(&mut self, room: usize) -> Result<(), AllocError>
        ensures ok { OnOk result (room ≤ self.new.room) }
        ensures err { OnErr result (self.new ≡ self.old) }
        ensures keeps { self.old.room ≤ self.new.room }
        ensures same { self.new.kept ≡ self.old.kept }
    {
        if room <= self.room {
            return Ok(());
        }
        self.kept.reserve(room - self.kept.len())?;
        self.room = room;
        Ok(())
    }

    /// How many bytes were put; 2^64 - 1 where there were more.
    pub fn count(&self) -> usize
        ensures { result ≡ self.now.count }
    {
        self.count
    }

    /// The bytes that were kept.
    pub fn as_slice(&self) -> &[u8]
        ensures { result.now ≡ self.now.kept }
    {
        self.kept.as_slice()
    }

    /// Puts a byte behind the last.
    pub fn put(&mut self, byte: u8)
        ensures { self.new ≡ behind self.old (byte ∷ []) }
    {
        self.put_all(&[byte]);
    }

    /// Puts bytes behind the last.
    pub fn put_all(&mut self, bytes: &[u8])
        ensures { self.new ≡ behind self.old bytes.now }
    {
        let fits = bytes.len().min(self.room - self.kept.len());
        match self.kept.extend_from_slice(&bytes[..fits]) {
            Ok(()) => {}
            Err(_) => unreachable!(),
        }
        self.count = self.count.saturating_add(bytes.len());
    }
}
