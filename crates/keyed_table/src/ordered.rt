//! Records with keys that have an order.
ghost use Rattle.std.specs.Prelude.{◌≡◌};
ghost use Rattle.std.specs.Cmp.{IsTotalOrder};
ghost use Rattle.std.specs.declared.cmp.Ordering.{Ordering as ordering_type};

use std::cmp::Ordering;

/// A record with a key.
pub trait Ordered: Drop {
    /// The key's type.
    type Key;

    ghost key_of: { Self → Self.Key };

    ghost order: { Self.Key → Self.Key → ordering_type };

    /// The record's key.
    fn key(&self) -> &Self::Key
        ensures { result.now ≡ key_of self.now };

    /// How the record's key compares with this one.
    fn compare(&self, key: &Self::Key) -> Ordering
        ensures { result ≡ order (key_of self.now) key.now };

    ghost total: { IsTotalOrder order };
}
