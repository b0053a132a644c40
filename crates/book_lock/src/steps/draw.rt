//! Drawing a ticket.
ghost use Rattle.std.specs.Prelude.{◌≡◌, ◌≢◌, ◌<◌, ◌-◌, ◌^◌};
ghost use Rattle.book_lock.specs.Steps.{IsIdle, Draws, changed, waiting};

use crate::chronicle::Chronicle;
use crate::rule::{Board, Place};
use crate::view::View;
use atomic_table::Play;

struct Draw;

impl<T> Play<Option<T>, View<T>> for Draw {
    ghost then = { Draws };
}

/// Draws the ticket where the word is still `next`, which it returns then.
pub(crate) fn try_draw<T: Chronicle>(board: &Board<T>, seat: &mut Place<T>, next: u64) -> u64
    requires here { seat.old.table_id ≡ board.now.shared.table_id }
    requires words { board.now.shared.table_id.words ≡ 2 }
    requires idle { IsIdle seat.old.me }
    requires room { next < 2 ^ 64 - 1 }
    ensures same { seat.new.table_id ≡ seat.old.table_id }
    ensures hit { result ≡ next → seat.new.me ≡ (changed (waiting next) seat.old.me.0, seat.old.me.1) }
    ensures miss { result ≢ next → seat.new.me ≡ seat.old.me }
{
    board
        .shared
        .compare_exchange::<Draw>(seat, 0, next, next + 1)
}
