//! A writer of std as a sink. It tells nothing of its content: what the system takes is trusted here.
//! It never flushes, so the writer is to keep no buffer of its own.
ghost use Rattle.std.specs.Prelude.{◌≡◌};
ghost use Rattle.heat_io.specs.Adapted.{sink_faults};

use crate::sink::{Put, Sink};
use std::io::Write;

/// A writer, and how often it has failed: also where it took nothing.
#[derive(Drop)]
pub struct StdSink<W> {
    inner: W,
    faults: u64,
}

impl<W: Write> StdSink<W> {
    /// A sink over this writer, which hasn't failed.
    pub fn new(inner: W) -> StdSink<W>
        ensures { sink_faults result ≡ 0 }
    {
        StdSink { inner, faults: 0 }
    }

    /// How many of its writes have failed.
    pub fn faults(&self) -> u64
        ensures { result ≡ sink_faults self.now }
    {
        self.faults
    }
}

impl<W: Write> Sink for StdSink<W> {
    ghost use Rattle.std.specs.Prelude.{None};
    ghost use Rattle.heat_io.specs.Adapted.{sink_faults};

    ghost holds = { λ _. None };

    ghost faults = { sink_faults };

    fn write(&mut self, bytes: &[u8]) -> Put {
        match self.inner.write(bytes) {
            Ok(count) if count > 0 => Put::Took(count),
            _ => {
                self.faults = self.faults.saturating_add(1);
                Put::Failed
            }
        }
    }
}
