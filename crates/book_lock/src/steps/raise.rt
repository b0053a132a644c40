//! Giving the slot back and raising the word of who is served, in one step.
ghost use Rattle.std.specs.Prelude.{◌≡◌};
ghost use Rattle.book_lock.specs.Steps.{GivesBack, Raises};

use crate::chronicle::Chronicle;
use crate::rule::{Board, Place};
use crate::view::View;
use atomic_table::Play;
use std::marker::PhantomData;

struct Rise<T> {
    of: PhantomData<T>,
}

impl<T: Chronicle> Play<Option<T>, View<T>> for Rise<T> {
    ghost then = { λ _ me _ now. Raises T.list me now };
}

/// The slot that the seat has goes home, and the next ticket is served.
pub(crate) fn raise<T: Chronicle>(board: &Board<T>, seat: &mut Place<T>)
    requires here { seat.old.table_id ≡ board.now.shared.table_id }
    requires words { board.now.shared.table_id.words ≡ 2 }
    requires holds { GivesBack T.list T.origin seat.old.me }
    ensures same { seat.new.table_id ≡ seat.old.table_id }
    ensures step { Raises T.list seat.old.me seat.new.me }
{
    let _ = board.shared.fetch_add::<Rise<T>>(seat, 1, 1);
}
