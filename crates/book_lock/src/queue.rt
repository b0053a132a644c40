//! Waiting for one's turn: a ticket is drawn, and the value is taken once it is served.
ghost use Rattle.std.specs.Prelude.{◌≡◌, []};
ghost use Rattle.book_lock.specs.Steps.{IsIdle, IsWaiting, Took, changed, waiting};

use crate::chronicle::Chronicle;
use crate::rule::{Board, Place};
use crate::steps::{try_draw, try_take};
use std::sync::Wait;

/// Draws a ticket. At the last number it never returns.
pub(crate) fn draw<T: Chronicle, R: Wait>(rt: &R, board: &Board<T>, seat: &mut Place<T>) -> u64
    requires here { seat.old.table_id ≡ board.now.shared.table_id }
    requires words { board.now.shared.table_id.words ≡ 2 }
    requires idle { IsIdle seat.old.me }
    ensures same { seat.new.table_id ≡ seat.old.table_id }
    ensures step { seat.new.me ≡ (changed (waiting result) seat.old.me.0, []) }
{
    for _ in rt.forever() {
        let next = board.shared.peek(0);
        if next == u64::MAX {
            board.shared.park(rt, 0, u32::MAX);
        } else if try_draw(board, seat, next) == next {
            return next;
        }
    }
    unreachable!()
}

/// Waits until the ticket is served. Then the slot is the seat's.
pub(crate) fn wait_turn<T: Chronicle, R: Wait>(
    rt: &R,
    board: &Board<T>,
    seat: &mut Place<T>,
    ticket: u64,
)
    requires here { seat.old.table_id ≡ board.now.shared.table_id }
    requires words { board.now.shared.table_id.words ≡ 2 }
    requires waits { IsWaiting ticket seat.old.me }
    ensures same { seat.new.table_id ≡ seat.old.table_id }
    ensures step { Took T.list T.origin ticket seat.old.me seat.new.me }
{
    for _ in rt.forever() {
        let served = try_take(board, seat, ticket);
        if served == ticket {
            return;
        }
        board.shared.park(rt, 1, (served & 0xffff_ffff) as u32);
    }
    unreachable!()
}
