//! The three calls of a turn: the look, the preparation, and the commit, which others may come before.
ghost use Rattle.std.specs.Prelude.{◌↔◌, ◌<◌, IsTrue};

use crate::orders::{Order, ordered};
use book::{Book, Look, Turn, Work, prepare};
use heat_plan::EngineNo;
use provider::Provider;
use record_keeper::Keeper;
use std::alloc::Global;
use type_catalog::Registry;

/// The letter of a turn's answer.
pub(crate) fn letter(turn: Turn) -> u8 {
    match turn {
        Turn::Stepped => b's',
        Turn::Idle => b'i',
        Turn::Lost => b'l',
        Turn::Worn => b'w',
        Turn::DiskFault => b'd',
        Turn::Memory => b'm',
    }
}

/// Whether an engine's number was drawn.
pub(crate) fn is_drawn<K: Keeper, P: Provider>(book: &Book<K, P>, e: EngineNo) -> bool
    ensures { IsTrue result ↔ (e < book.now.state.next.engine) }
{
    e.get() < book.state().next().engine.get()
}

/// Looks at a step and prepares it, gives the order, if there is one, and commits: the letter of the answer,
/// and how many entries stood before the commit. `i` is told where there is no step; none where there is no
/// memory, or the order isn't taken.
pub(crate) fn committed<K: Keeper, P: Provider>(
    alloc: Global,
    registry: &Registry,
    book: &mut Book<K, P>,
    e: EngineNo,
    order: Option<Order>,
) -> Option<(u8, usize)> {
    match work_of(book, e) {
        Some(work) => commit_over(alloc, registry, book, e, work, order),
        None => Some((b'i', book.entries().len())),
    }
}

// The step that an engine looks at, if there is one.
fn work_of<K: Keeper, P: Provider>(book: &Book<K, P>, e: EngineNo) -> Option<Work> {
    if !is_drawn(book, e) {
        return None;
    }
    match book.look(e) {
        Ok(Look::Work(work)) => Some(work),
        _ => None,
    }
}

// Prepares a step, gives the order, and commits.
fn commit_over<K: Keeper, P: Provider>(
    alloc: Global,
    registry: &Registry,
    book: &mut Book<K, P>,
    e: EngineNo,
    work: Work,
    order: Option<Order>,
) -> Option<(u8, usize)> {
    let prepared = prepare(alloc, registry, &work);
    let before = overtaken(alloc, book, e, order);
    if is_drawn(book, e) {
        let commit = book.commit(e, work, prepared);
        Some((letter(commit), before?))
    } else {
        None
    }
}

// Gives the order; how many entries stand then, none where it isn't taken.
fn overtaken<K: Keeper, P: Provider>(
    alloc: Global,
    book: &mut Book<K, P>,
    e: EngineNo,
    order: Option<Order>,
) -> Option<usize> {
    if let Some(order) = order {
        if ordered(alloc, book, e, order)? != b'+' {
            return None;
        }
    }
    Some(book.entries().len())
}
