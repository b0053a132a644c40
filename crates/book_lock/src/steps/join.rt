//! Joining two views.
ghost use Rattle.std.specs.Prelude.{◌≡◌, []};
ghost use Rattle.book_lock.specs.Steps.{AreSiblingSeats, both};
ghost use Rattle.book_lock.specs.declared.view.View.TheVariants.{Spent};

use crate::chronicle::Chronicle;
use crate::rule::{Board, Place};
use crate::view::View;
use atomic_table::Join;

struct Both;

impl<T> Join<View<T>> for Both {
    ghost both = { both };

    ghost spent = { Spent };
}

/// The seat has the accounts of both.
pub(crate) fn merge<T: Chronicle>(board: &Board<T>, seat: &mut Place<T>, other: Place<T>)
    requires here { seat.old.table_id ≡ board.now.shared.table_id }
    requires there { other.table_id ≡ board.now.shared.table_id }
    requires words { board.now.shared.table_id.words ≡ 2 }
    requires siblings { AreSiblingSeats seat.old.me other.me }
    ensures same { seat.new.table_id ≡ seat.old.table_id }
    ensures both { seat.new.me ≡ (both seat.old.me.0 other.me.0, []) }
{
    board.shared.join_seat::<Both>(seat, other);
}
