//! Records with keys.
ghost use Rattle.std.specs.Prelude.{Bool, ◌≡◌};
ghost use Rattle.keyed_table.specs.Orders.{IsSorting};

/// A record with a key. Keys are sorted by `is_below`, and two of them are one where neither is below
/// the other.
pub trait Keyed: Drop {
    /// The key's type.
    type Key;

    ghost key_of: { Self → Self.Key };

    ghost same: { Self.Key → Self.Key → Bool };

    ghost below: { Self.Key → Self.Key → Bool };

    /// The record's key.
    fn key(&self) -> &Self::Key
        ensures { result.now ≡ key_of self.now };

    /// Whether this is the record's key.
    fn has_key(&self, key: &Self::Key) -> bool
        ensures { result ≡ same (key_of self.now) key.now };

    /// Whether the record's key is below this one.
    fn is_below(&self, key: &Self::Key) -> bool
        ensures { result ≡ below (key_of self.now) key.now };

    ghost sorts: { IsSorting same below };
}
