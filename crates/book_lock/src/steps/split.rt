//! Cutting a view in two.
ghost use Rattle.std.specs.Prelude.{◌≡◌, []};
ghost use Rattle.book_lock.specs.Steps.{changed, elder, younger};
ghost use Rattle.book_lock.specs.declared.view.View.TheVariants.{Live};
ghost use Rattle.book_lock.specs.declared.view.Stand.{Stand};

use crate::chronicle::Chronicle;
use crate::rule::{Board, Place};
use crate::view::View;
use atomic_table::Split;

struct Halves;

impl<T> Split<View<T>> for Halves {
    ghost left = { changed elder };

    ghost right = { changed younger };
}

/// The seat keeps its accounts, and the new one has seen as much and added nothing.
pub(crate) fn cut<T: Chronicle>(board: &Board<T>, seat: &mut Place<T>) -> Place<T>
    requires here { seat.old.table_id ≡ board.now.shared.table_id }
    requires words { board.now.shared.table_id.words ≡ 2 }
    requires live { (stand : Stand T) × (seat.old.me.0 ≡ Live stand) }
    ensures same { (seat.new.table_id ≡ seat.old.table_id) × (result.table_id ≡ seat.old.table_id) }
    ensures elder { seat.new.me ≡ (changed elder seat.old.me.0, seat.old.me.1) }
    ensures younger { result.me ≡ (changed younger seat.old.me.0, []) }
{
    board.shared.split_seat::<Halves>(seat)
}
