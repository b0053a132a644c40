//! A pass: the right to lock, and what is known of the value by what was held with it.
use crate::rule::Place;
use std::marker::Model;

/// It may not be dropped, so that `close` gets all passes that there are.
pub struct Pass<T> {
    pub(crate) seat: Place<T>,
    pub(crate) name: Vec<bool>,
    pub(crate) holds: bool,
}

impl<T> Model for Pass<T> {
    ghost use Rattle.book_lock.specs.Standing.{Standing, standing_of, IsSeated};

    ghost Value = { Standing T };

    ghost view = { λ a. standing_of a.seat.table_id a.seat.me a.name.items a.holds };

    ghost invariant = { λ a. IsSeated a.seat.table_id a.seat.me a.name.items a.holds };
}

impl<T> Pass<T> {
    ghost use Rattle.std.specs.Prelude.{◌≡◌, length};

    /// Whether the pass holds the value.
    pub fn holds(&self) -> bool
        ensures { result ≡ self.now.holds }
    {
        self.holds
    }

    /// The flags that each split put behind the others.
    pub(crate) fn name(&self) -> &[bool]
        ensures { result.now ≡ self.now.name }
    {
        self.name.as_slice()
    }

    /// How many splits lie between the first pass and this one.
    pub(crate) fn depth(&self) -> usize
        ensures { result ≡ length self.now.name }
    {
        self.name.len()
    }
}
