//! One half of a disk in memory: what it began with, what it holds, and its room.
ghost use Rattle.std.specs.Prelude.{◌≡◌, ◌≤◌, length, take, IfOk, OnOk, OnErr};
ghost use Rattle.heat_disk.specs.Images.{overwritten};
ghost use Rattle.heat_disk.specs.Shown.{HasRoom};
ghost use Rattle.heat_disk.specs.Memory.{no_room, less, widened};

use crate::bytes::overwrite;
use std::alloc::{AllocError, Global};
use std::marker::Model;

/// A half in memory, with so much room: up to an end, for bytes and for calls.
pub(crate) struct Content {
    start: Vec<u8>,
    held: Vec<u8>,
    end: u64,
    bytes: u64,
    calls: u64,
}

impl Drop for Content {
    fn drop(self) {
        let Content {
            start: _,
            held: _,
            end: _,
            bytes: _,
            calls: _,
        } = self;
    }
}

impl Model for Content {
    ghost use Rattle.std.specs.Prelude.{◌≤◌, vec_capacity};
    ghost use Rattle.heat_disk.specs.Memory.{HeldHalf};

    ghost Value = { HeldHalf };

    ghost view = { λ a. record {
      start = a.start.items;
      held = a.held.items;
      room = record { end = a.end; bytes = a.bytes; calls = a.calls };
    } };

    ghost invariant = { λ a. a.end ≤ vec_capacity a.held };
}

impl Content {
    /// A half with these bytes from the start, without room.
    pub(crate) fn new(alloc: Global, bytes: &[u8]) -> Result<Content, AllocError>
        ensures { IfOk result (λ half. half
            ≡ record { start = bytes.now; held = bytes.now; room = no_room }) }
    {
        Ok(Content {
            start: Vec::from_slice(alloc, bytes)?,
            held: Vec::from_slice(alloc, bytes)?,
            end: 0,
            bytes: 0,
            calls: 0,
        })
    }

    /// What it began with.
    pub(crate) fn start(&self) -> &[u8]
        ensures { result.now ≡ self.now.start }
    {
        &self.start
    }

    /// What it has now.
    pub(crate) fn held(&self) -> &[u8]
        ensures { result.now ≡ self.now.held }
    {
        &self.held
    }

    /// How many more calls it has room for.
    pub(crate) fn calls(&self) -> u64
        ensures { result ≡ self.now.room.calls }
    {
        self.calls
    }

    /// How many more bytes it has room for.
    pub(crate) fn bytes(&self) -> u64
        ensures { result ≡ self.now.room.bytes }
    {
        self.bytes
    }

    /// Takes the memory for its own bytes up to this end.
    pub(crate) fn widen(&mut self, end: u64, bytes: u64, calls: u64) -> Result<(), AllocError>
        ensures ok { OnOk result (self.new ≡ record {
          start = self.old.start;
          held = self.old.held;
          room = widened end bytes calls self.old.room;
        }) }
        ensures err { OnErr result (self.new ≡ self.old) }
    {
        let len = self.held.len();
        let far = if self.end < end { end } else { self.end };
        if (len as u64) < far {
            self.held.reserve(far as usize - len)?;
        }
        self.end = far;
        self.bytes = if self.bytes < bytes {
            bytes
        } else {
            self.bytes
        };
        self.calls = if self.calls < calls {
            calls
        } else {
            self.calls
        };
        Ok(())
    }

    /// Puts bytes over those from the place on, by the room.
    pub(crate) fn write(&mut self, at: u64, bytes: &[u8])
        requires at { at ≤ length self.old.held }
        requires room { HasRoom self.old.room at (length bytes.now) }
        ensures { self.new ≡ record {
          start = self.old.start;
          held = overwritten at bytes.now self.old.held;
          room = less (length bytes.now) self.old.room;
        } }
    {
        match overwrite(&mut self.held, at as usize, bytes) {
            Ok(()) => {}
            Err(_) => unreachable!(),
        }
        self.bytes -= bytes.len() as u64;
        self.calls -= 1;
    }

    /// Keeps so many of the first bytes.
    pub(crate) fn cut(&mut self, len: u64)
        requires { HasRoom self.old.room 0 0 }
        ensures { self.new ≡ record {
          start = self.old.start;
          held = take len self.old.held;
          room = less 0 self.old.room;
        } }
    {
        self.held.truncate(len as usize);
        self.calls -= 1;
    }

    /// Spends a call of the room, and no more.
    pub(crate) fn sync(&mut self)
        requires { HasRoom self.old.room 0 0 }
        ensures { self.new ≡ record {
          start = self.old.start;
          held = self.old.held;
          room = less 0 self.old.room;
        } }
    {
        self.calls -= 1;
    }
}
