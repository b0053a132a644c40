//! What the lock asks of the value that it hands out.
ghost use Rattle.std.specs.Prelude.{List};

/// A value that shows a list of entries, and an origin that no holder changes.
pub trait Chronicle {
    type Entry;

    type Origin;

    ghost list: { Self → List Self.Entry };

    ghost origin: { Self → Self.Origin };
}
