//! A source in memory, which tells what it has left. The calls whose numbers are listed fail.
ghost use Rattle.std.specs.Prelude.{◌≡◌, ◌<◌, ◌≤◌, min, Some, IfOk, length, take};
ghost use Rattle.heat_value.specs.Counts.{Rose};
ghost use Rattle.heat_io.specs.Streams.{Gives};
ghost use Rattle.heat_io.specs.Numbered.{uncalled, answer_to_read, after_read};

use crate::calls::Calls;
use crate::source::{Got, Source};
use std::alloc::{AllocError, Global};
use std::marker::Model;

/// The bytes of a script, with how many were read and how many a call gives at most.
pub struct MemSource {
    all: Vec<u8>,
    read: usize,
    piece: usize,
    calls: Calls,
}

impl Drop for MemSource {
    fn drop(self) {
        let MemSource {
            all: _,
            read: _,
            piece: _,
            calls: _,
        } = self;
    }
}

impl Model for MemSource {
    ghost use Rattle.std.specs.Prelude.{◌<◌, ◌≤◌, drop, vec_len};
    ghost use Rattle.heat_io.specs.Numbered.{Spring};

    ghost Value = { Spring };

    ghost view = { λ s. record { left = drop s.read s.all.items; piece = s.piece; calls = s.calls } };

    ghost invariant = { λ s. (s.read ≤ vec_len s.all) × (0 < s.piece) };
}

impl MemSource {
    /// A source of these bytes, of which a call moves at most `piece`. The calls with these numbers
    /// fail; the first call has the number 1.
    pub fn new(
        alloc: Global,
        bytes: &[u8],
        piece: usize,
        fails: &[u64],
    ) -> Result<MemSource, AllocError>
        requires { 0 < piece }
        ensures { IfOk result (λ source. source
            ≡ record { left = bytes.now; piece = piece; calls = uncalled fails.now }) }
    {
        Ok(MemSource {
            all: Vec::from_slice(alloc, bytes)?,
            read: 0,
            piece,
            calls: Calls::new(alloc, fails)?,
        })
    }

    /// The bytes that it has left.
    pub fn left(&self) -> &[u8]
        ensures { result.now ≡ self.now.left }
    {
        &self.all[self.read..]
    }

    /// How many of its calls have failed.
    pub fn faults(&self) -> u64
        ensures { result ≡ self.now.calls.faults }
    {
        self.calls.faults()
    }
}

impl Source for MemSource {
    ghost use Rattle.std.specs.Prelude.{Some};

    ghost left = { λ s. Some s.left };

    ghost faults = { λ s. s.calls.faults };

    fn read(&mut self, buf: &mut [u8]) -> Got
        requires { 0 < length buf.old }
        ensures answer { result ≡ answer_to_read self.old (length buf.old) }
        ensures after { self.new ≡ after_read self.old (length buf.old) }
        ensures gives { Gives (Some self.old.left) (Some self.new.left) result buf.new }
        ensures later { self.old.calls.faults ≤ self.new.calls.faults }
        ensures cause { result ≡ Got.Failed → Rose self.old.calls.faults self.new.calls.faults }
    {
        if self.calls.count() {
            return Got::Failed;
        }
        let count = front(buf, &self.all[self.read..], self.piece);
        if count == 0 {
            return Got::End;
        }
        self.read += count;
        Got::Bytes(count)
    }
}

// Puts at most `piece` of the bytes in front of the buffer, and says how many.
fn front(buf: &mut [u8], bytes: &[u8], piece: usize) -> usize
    ensures count { result ≡ min piece (min (length buf.old) (length bytes.now)) }
    ensures moved { take result buf.new ≡ take result bytes.now }
{
    let count = piece.min(buf.len()).min(bytes.len());
    buf[..count].copy_from_slice(&bytes[..count]);
    count
}
