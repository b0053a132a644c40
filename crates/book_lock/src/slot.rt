//! The value out of the slot and back, while the slot is the seat's.
ghost use Rattle.std.specs.Prelude.{◌≡◌, ◌∷◌, [], Some, None};

use crate::chronicle::Chronicle;
use crate::rule::{Board, Place};

/// The slot is left empty.
pub(crate) fn take_out<T: Chronicle>(board: &Board<T>, seat: &mut Place<T>) -> T
    requires here { seat.old.table_id ≡ board.now.shared.table_id }
    requires full { (value : T) × (seat.old.me.1 ≡ (0, Some value) ∷ []) }
    ensures same { seat.new.table_id ≡ seat.old.table_id }
    ensures value { seat.old.me.1 ≡ (0, Some result) ∷ [] }
    ensures empty { seat.new.me ≡ (seat.old.me.0, (0, None) ∷ []) }
{
    board.shared.exchange(seat, 0, None).unwrap()
}

/// The slot has the value.
pub(crate) fn put_in<T: Chronicle>(board: &Board<T>, seat: &mut Place<T>, value: T)
    requires here { seat.old.table_id ≡ board.now.shared.table_id }
    requires empty { seat.old.me.1 ≡ (0, None) ∷ [] }
    ensures same { seat.new.table_id ≡ seat.old.table_id }
    ensures full { seat.new.me ≡ (seat.old.me.0, (0, Some value) ∷ []) }
{
    let before = board.shared.exchange(seat, 0, Some(value));
    let None = before else { unreachable!() };
}
