//! A sink in memory, which tells what it holds. The calls whose numbers are listed fail.
ghost use Rattle.std.specs.Prelude.{◌≡◌, ◌<◌, ◌≤◌, [], Some, IfOk, length};
ghost use Rattle.heat_value.specs.Counts.{Rose};
ghost use Rattle.heat_io.specs.Streams.{Takes};
ghost use Rattle.heat_io.specs.Numbered.{uncalled, IsWritten};

use crate::calls::Calls;
use crate::sink::{Put, Sink};
use std::alloc::{AllocError, Global};
use std::marker::Model;

/// The bytes that were written, with how many a call takes at most. A call that answers Memory has no number.
pub struct MemSink {
    held: Vec<u8>,
    piece: usize,
    calls: Calls,
}

impl Drop for MemSink {
    fn drop(self) {
        let MemSink {
            held: _,
            piece: _,
            calls: _,
        } = self;
    }
}

impl Model for MemSink {
    ghost use Rattle.std.specs.Prelude.{◌<◌};
    ghost use Rattle.heat_io.specs.Numbered.{Basin};

    ghost Value = { Basin };

    ghost view = { λ s. record { held = s.held.items; piece = s.piece; calls = s.calls } };

    ghost invariant = { λ s. 0 < s.piece };
}

impl MemSink {
    /// An empty sink, of which a call takes at most `piece` bytes. The calls with these numbers fail;
    /// the first call has the number 1.
    pub fn new(alloc: Global, piece: usize, fails: &[u64]) -> Result<MemSink, AllocError>
        requires { 0 < piece }
        ensures { IfOk result (λ sink. sink
            ≡ record { held = []; piece = piece; calls = uncalled fails.now }) }
    {
        Ok(MemSink {
            held: Vec::new(alloc),
            piece,
            calls: Calls::new(alloc, fails)?,
        })
    }

    /// The bytes that it holds.
    pub fn held(&self) -> &[u8]
        ensures { result.now ≡ self.now.held }
    {
        &self.held
    }

    /// How many of its calls have failed.
    pub fn faults(&self) -> u64
        ensures { result ≡ self.now.calls.faults }
    {
        self.calls.faults()
    }
}

impl Sink for MemSink {
    ghost use Rattle.std.specs.Prelude.{Some};

    ghost holds = { λ s. Some s.held };

    ghost faults = { λ s. s.calls.faults };

    fn write(&mut self, bytes: &[u8]) -> Put
        requires { 0 < length bytes.now }
        ensures written { IsWritten self.old self.new result bytes.now }
        ensures takes { Takes (Some self.old.held) (Some self.new.held) result bytes.now }
        ensures later { self.old.calls.faults ≤ self.new.calls.faults }
        ensures cause { result ≡ Put.Failed → Rose self.old.calls.faults self.new.calls.faults }
    {
        let count = self.piece.min(bytes.len());
        if self.held.reserve(count).is_err() {
            return Put::Memory;
        }
        if self.calls.count() {
            return Put::Failed;
        }
        match self.held.extend_from_slice(&bytes[..count]) {
            Ok(()) => Put::Took(count),
            Err(_) => unreachable!(),
        }
    }
}
