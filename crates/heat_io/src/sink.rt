//! Where a text goes to, written piece by piece: what it shows, its call, its laws.
ghost use Rattle.std.specs.Prelude.{◌≡◌, ℕ, ◌<◌, ◌≤◌, List, Option, length};
ghost use Rattle.heat_value.specs.Counts.{Rose};
ghost use Rattle.heat_io.specs.Streams.{Takes};

/// What a write came to.
#[derive(Clone, Copy, Debug, PartialEq, Eq)]
pub enum Put {
    /// It took so many of the first bytes, at least one.
    Took(usize),
    /// The write failed. The sink's count of faults has risen.
    Failed,
    /// There was no memory. Nothing was taken.
    Memory,
}

/// Takes bytes, as many at once as it likes.
pub trait Sink {
    /// The bytes that it holds, where the sink tells.
    ghost holds: { Self → Option (List ℕ) };

    /// How often a write has failed. The count never falls.
    ghost faults: { Self → ℕ };

    /// Writes as many of the bytes as it takes at once.
    fn write(&mut self, bytes: &[u8]) -> Put
        requires { 0 < length bytes.now }
        ensures takes { Takes (holds self.old) (holds self.new) result bytes.now }
        ensures later { faults self.old ≤ faults self.new }
        ensures cause { result ≡ Put.Failed → Rose (faults self.old) (faults self.new) };
}
