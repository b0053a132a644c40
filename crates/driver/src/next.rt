//! The engine whose turn is next.
ghost use Rattle.std.specs.Prelude.{◌≡◌, ◌≢◌, ◌≤◌, ◌<◌, ◌^◌, ◌+◌, [], IfSome, IsNone};
ghost use Rattle.std.specs.Bool.{OnFalse, OnTrue};
ghost use Rattle.step_relation.specs.Nexts.{IsIdle};
ghost use Rattle.book.specs.Kept.{HasRun, IsHeld, IsSoundBook, IsSoundOpening};
ghost use Rattle.book.specs.Quiet.{IsIdle as IsIdleBook};
ghost use Rattle.driver.specs.Rounds.{AreIdleFrom, IsFirstFrom, IsNext};
ghost use Rattle.driver.specs.Settled.{AreSettled};

use book::Book;
use core_state::State;
use heat_plan::EngineNo;
use provider::Provider;
use record_keeper::Keeper;
use step_reads::{Task, next_of};

/// The first live engine that has something to do, going round from behind the one of the number `last`,
/// 0 before the first; none where the book is idle.
pub(crate) fn next_engine<K: Keeper, P: Provider>(book: &Book<K, P>, last: u64) -> Option<EngineNo>
    requires live { book.now.state.live ≢ [] }
    requires number { last < 2 ^ 62 }
    ensures some { IfSome result (IsNext book.now.state last) }
    ensures drawn { IfSome result (λ e. e < book.now.state.next.engine) }
    ensures none { IsNone result → IsIdleBook book.now.state }
    ensures settled { IsNone result → IsSoundOpening P.cloud book.now → AreSettled P.cloud book.now }
    ensures sound { IsSoundOpening P.cloud book.now → IsSoundBook P.cloud book.now }
    ensures run { HasRun P.cloud book.now }
    ensures held { IsHeld (K.shown book.now.origin.keeper) (K.shown book.now.keeper)
        (K.faults book.now.origin.keeper) (K.faults book.now.keeper) book.now.state book.now.halt }
{
    book.promises();
    match first_from(book, last + 1) {
        Some(e) => Some(e),
        None => first_from(book, 0),
    }
}

// The first live engine of this number or a greater one that has something to do.
fn first_from<K: Keeper, P: Provider>(book: &Book<K, P>, from: u64) -> Option<EngineNo>
    ensures some { IfSome result (IsFirstFrom book.now.state from) }
    ensures drawn { IfSome result (λ e. e < book.now.state.next.engine) }
    ensures none { IsNone result → AreIdleFrom book.now.state from }
{
    for e in book.live() {
        if from <= e.get() && !is_idle(book.state(), *e) {
            return Some(*e);
        }
    }
    None
}

// Whether an engine is live and has nothing to do.
fn is_idle(s: &State, e: EngineNo) -> bool
    ensures yes { OnTrue result (IsIdle s.now.state e) }
    ensures no_ { OnFalse result (¬ IsIdle s.now.state e) }
{
    matches!(next_of(s, e), Task::Idle)
}
