//! Looking who is served, and taking the value in one's turn.
ghost use Rattle.std.specs.Prelude.{◌≡◌};
ghost use Rattle.book_lock.specs.Steps.{IsWaiting, Takes};

use crate::chronicle::Chronicle;
use crate::rule::{Board, Place};
use crate::view::View;
use atomic_table::Play;
use std::marker::PhantomData;

struct Take<T> {
    of: PhantomData<T>,
}

impl<T: Chronicle> Play<Option<T>, View<T>> for Take<T> {
    ghost then = { λ _. Takes T.list T.origin };
}

/// Returns the ticket that is served. Where it is the pass's, the slot is the seat's.
pub(crate) fn try_take<T: Chronicle>(board: &Board<T>, seat: &mut Place<T>, ticket: u64) -> u64
    requires here { seat.old.table_id ≡ board.now.shared.table_id }
    requires words { board.now.shared.table_id.words ≡ 2 }
    requires waits { IsWaiting ticket seat.old.me }
    ensures same { seat.new.table_id ≡ seat.old.table_id }
    ensures step { Takes T.list T.origin seat.old.me result seat.new.me }
{
    board.shared.load::<Take<T>>(seat, 1)
}
