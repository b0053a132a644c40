//! A reader of std as a source. It tells nothing of its content: what the system gives is trusted here.
ghost use Rattle.std.specs.Prelude.{◌≡◌};
ghost use Rattle.heat_io.specs.Adapted.{source_faults};

use crate::source::{Got, Source};
use std::io::Read;

/// A reader, and how often it has failed.
#[derive(Drop)]
pub struct StdSource<R> {
    inner: R,
    faults: u64,
}

impl<R: Read> StdSource<R> {
    /// A source over this reader, which hasn't failed.
    pub fn new(inner: R) -> StdSource<R>
        ensures { source_faults result ≡ 0 }
    {
        StdSource { inner, faults: 0 }
    }

    /// How many of its reads have failed.
    pub fn faults(&self) -> u64
        ensures { result ≡ source_faults self.now }
    {
        self.faults
    }
}

impl<R: Read> Source for StdSource<R> {
    ghost use Rattle.std.specs.Prelude.{None};
    ghost use Rattle.heat_io.specs.Adapted.{source_faults};

    ghost left = { λ _. None };

    ghost faults = { source_faults };

    fn read(&mut self, buf: &mut [u8]) -> Got {
        match self.inner.read(buf) {
            Ok(0) => Got::End,
            Ok(count) => Got::Bytes(count),
            Err(_) => {
                self.faults = self.faults.saturating_add(1);
                Got::Failed
            }
        }
    }
}
