//! The rule of the lock's table, which has two words, the next ticket and the one that is served,
//! and one slot with the value.
use crate::chronicle::Chronicle;
use crate::view::View;
use atomic_table::{Seat, Table, TableRule};
use std::alloc::Global;
use std::marker::PhantomData;
use std::snapshot::Snapshot;

/// The rule, told the value that the lock was opened with.
pub struct Law<T> {
    of: PhantomData<T>,
}

impl<T: Chronicle> TableRule<Option<T>, View<T>, Snapshot<T>> for Law<T> {
    ghost use Rattle.book_lock.specs.Rule.{IsKept, first_view};

    ghost holds = { λ key. IsKept T.list T.origin key.value };

    ghost first = { λ key. first_view key.value };
}

/// The two words, the slot and the views of all passes, under the rule.
pub type Board<T> = Table<Option<T>, View<T>, Snapshot<T>, Law<T>, Global>;

/// What a pass steps with: its view, and the slot where it has it.
pub type Place<T> = Seat<Option<T>, View<T>>;
