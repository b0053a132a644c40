//! Numbers and keys that no script wears out.

use crate::halt::Halt;
use core_state::{ApplyFault, Change, Next, State};
use heat_plan::WORN;
use heat_value::TryCopy;
use std::alloc::Global;

/// What is worn out: the numbers of traversals, rows, engines or letters, or the key of the first row.
#[derive(Clone, Copy)]
pub(crate) enum Worn {
    Travs,
    Rows,
    Engines,
    Letters,
    Key,
}

/// Wears it out: no other number is left, and the key can rise no more.
pub(crate) fn wear(alloc: Global, s: &mut State, what: Worn) -> Result<(), Halt> {
    let change = change_of(s, what)?;
    match s.apply(alloc, change) {
        Ok(()) => Ok(()),
        Err(ApplyFault::Memory) => Err(Halt::Memory),
        Err(ApplyFault::Bad) => Err(Halt::Words),
    }
}

// The change that does so.
fn change_of(s: &State, what: Worn) -> Result<Change, Halt> {
    let mut next = *s.next();
    match what {
        Worn::Travs => next.trav = last(next.trav),
        Worn::Rows => next.row = last(next.row),
        Worn::Engines => next.engine = last(next.engine),
        Worn::Letters => next.letter = last(next.letter),
        Worn::Key => return worn_key(s),
    }
    Ok(Change::Numbers(next))
}

// A number of which no other is left.
fn last(next: Next) -> Next {
    next.after(WORN - next.get())
}

// The first row with a key that can rise no more.
fn worn_key(s: &State) -> Result<Change, Halt> {
    let Some(row) = s.rows().first() else {
        return Err(Halt::Words);
    };
    let mut row = row.copy()?;
    row.key = WORN - 1;
    Ok(Change::PutRow(row))
}
