//! What a case asks of a book, and what is told of it: for each call a letter and how many entries it adds.

use crate::commits::{committed, is_drawn, letter};
use crate::orders::{Order, ordered};
use book::Book;
use heat_plan::EngineNo;
use provider::Provider;
use record_keeper::Keeper;
use std::alloc::Global;
use type_catalog::Registry;

/// An order; so many turns of the first engine; so many of its steps by the three calls of a turn in a row;
/// or one such step whose commit comes behind an order.
#[derive(Clone, Copy)]
pub(crate) enum Ask {
    Order(Order),
    Turns(u8),
    Calls(u8),
    Late(Order),
}

/// Asks it, and adds what is told; none where there is no memory, or an order isn't taken that is to be.
pub(crate) fn tell<K: Keeper, P: Provider>(
    alloc: Global,
    registry: &Registry,
    book: &mut Book<K, P>,
    e: EngineNo,
    ask: Ask,
    told: &mut Vec<u8>,
) -> Option<()> {
    match ask {
        Ask::Order(order) => tell_order(alloc, book, e, order, told),
        Ask::Turns(times) => tell_turns(registry, book, e, times, told),
        Ask::Calls(times) => tell_calls(alloc, registry, book, e, times, told),
        Ask::Late(order) => tell_commit(alloc, registry, book, e, Some(order), told),
    }
}

// An order.
fn tell_order<K: Keeper, P: Provider>(
    alloc: Global,
    book: &mut Book<K, P>,
    e: EngineNo,
    order: Order,
    told: &mut Vec<u8>,
) -> Option<()> {
    let before = book.entries().len();
    let letter = ordered(alloc, book, e, order)?;
    add(told, letter, before, book.entries().len())
}

// So many turns.
fn tell_turns<K: Keeper, P: Provider>(
    registry: &Registry,
    book: &mut Book<K, P>,
    e: EngineNo,
    times: u8,
    told: &mut Vec<u8>,
) -> Option<()> {
    for _ in 0..times {
        tell_turn(registry, book, e, told)?;
    }
    Some(())
}

// A turn; none where the engine's number wasn't drawn.
fn tell_turn<K: Keeper, P: Provider>(
    registry: &Registry,
    book: &mut Book<K, P>,
    e: EngineNo,
    told: &mut Vec<u8>,
) -> Option<()> {
    if !is_drawn(book, e) {
        return None;
    }
    let before = book.entries().len();
    let turn = book.turn(e, registry);
    add(told, letter(turn), before, book.entries().len())
}

// So many steps by the three calls.
fn tell_calls<K: Keeper, P: Provider>(
    alloc: Global,
    registry: &Registry,
    book: &mut Book<K, P>,
    e: EngineNo,
    times: u8,
    told: &mut Vec<u8>,
) -> Option<()> {
    for _ in 0..times {
        tell_commit(alloc, registry, book, e, None, told)?;
    }
    Some(())
}

// One of them.
fn tell_commit<K: Keeper, P: Provider>(
    alloc: Global,
    registry: &Registry,
    book: &mut Book<K, P>,
    e: EngineNo,
    order: Option<Order>,
    told: &mut Vec<u8>,
) -> Option<()> {
    let (letter, before) = committed(alloc, registry, book, e, order)?;
    add(told, letter, before, book.entries().len())
}

// A letter, and how many entries were added, as a digit.
fn add(told: &mut Vec<u8>, letter: u8, before: usize, after: usize) -> Option<()> {
    told.push(letter).ok()?;
    told.push(digit(after.saturating_sub(before))).ok()
}

// A digit.
fn digit(count: usize) -> u8 {
    if count < 10 { b'0' + count as u8 } else { b'?' }
}
