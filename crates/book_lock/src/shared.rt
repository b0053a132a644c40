//! The lock: how it is opened, and the hold of its value.
ghost use Rattle.std.specs.Prelude.{◌≡◌, true, false, ◌∷◌, [], IfOk, IfErr, Some, None, option_map};
ghost use mathlib.Core.List.{IsPrefix};

use crate::chronicle::Chronicle;
use crate::pass::Pass;
use crate::queue::{draw, wait_turn};
use crate::rule::Board;
use crate::slot::{put_in, take_out};
use crate::steps::raise;
use atomic_table::{Refused, Table};
use std::alloc::{AllocError, AllocFailed, Global};
use std::marker::Model;
use std::snapshot::Snapshot;
use std::sync::Wait;

/// The value that the passes of this lock share.
pub struct Shared<T: Chronicle> {
    pub(crate) board: Board<T>,
}

impl<T: Chronicle> Model for Shared<T> {
    ghost use Rattle.book_lock.specs.Standing.{Lock, lock_of, IsSized};

    ghost Value = { Lock T };

    ghost view = { λ a. lock_of a.board.shared.table_id a.board.shared.key.value };

    ghost invariant = { λ a. IsSized a.board.shared.table_id };
}

// The slot, with the value in it.
fn slot_of<T>(alloc: Global, value: T) -> Result<Vec<Option<T>>, (T, AllocError)>
    ensures ok { IfOk result (λ v. v.items ≡ Some value ∷ []) }
    ensures err { IfErr result (λ e. e.0 ≡ value) }
{
    let mut slots = Vec::new(alloc);
    match slots.push(Some(value)) {
        Ok(()) => Ok(slots),
        Err(AllocFailed { value }) => {
            slots.destroy_empty();
            Err((value.unwrap(), AllocError))
        }
    }
}

// The value out of its slot.
fn value_of<T>(mut slots: Vec<Option<T>>) -> T
    requires { (value : T) × (slots.items ≡ Some value ∷ []) }
    ensures { slots.items ≡ Some result ∷ [] }
{
    let value = slots.pop().unwrap().unwrap();
    slots.destroy_empty();
    value
}

impl<T: Chronicle> Shared<T> {
    ghost use Rattle.book_lock.specs.Standing.{IsPassOf, newcomer, seen, holding_pass, released_pass};

    /// The lock over the value, and its first pass.
    pub fn new(alloc: Global, value: T) -> Result<(Shared<T>, Pass<T>), (T, AllocError)>
        ensures opened { IfOk result (λ r. r.0.opening ≡ value) }
        ensures pass { IfOk result (λ r. r.1 ≡ newcomer r.0 [] (Some value)) }
        ensures memory { IfErr result (λ e. e.0 ≡ value) }
    {
        let opening = Snapshot::of(&value);
        let slots = slot_of(alloc, value)?;
        match Table::new(alloc, &[0, 0], slots, &opening) {
            Ok((board, seat)) => {
                let pass = Pass {
                    seat,
                    name: Vec::new(alloc),
                    holds: false,
                };
                Ok((Shared { board }, pass))
            }
            Err(Refused { slots }) => Err((value_of(slots), AllocError)),
        }
    }

    /// Waits for the pass's turn and takes the value out. It may wait forever.
    pub fn lock<R: Wait>(&self, rt: &R, pass: &mut Pass<T>) -> T
        requires here { IsPassOf self.now pass.old }
        requires free { pass.old.holds ≡ false }

        // One list and one origin, whoever held the value.
        ensures begins { IsPrefix (seen T.list pass.old.own) (T.list result) }
        ensures origin { T.origin result ≡ T.origin self.now.opening }

        ensures holds { pass.new ≡ holding_pass pass.old result }
    {
        let ticket = draw(rt, &self.board, &mut pass.seat);
        wait_turn(rt, &self.board, &mut pass.seat, ticket);
        let value = take_out(&self.board, &mut pass.seat);
        pass.holds = true;
        value
    }

    /// Gives the value back, with whatever was added to its list, and serves the next ticket.
    pub fn release(&self, pass: &mut Pass<T>, value: T)
        requires here { IsPassOf self.now pass.old }
        requires holds { pass.old.holds ≡ true }

        // The list that `lock` gave goes on, and the origin that it gave stays.
        requires begins { IsPrefix (seen T.list pass.old.own) (T.list value) }
        requires origin { option_map T.origin pass.old.own.last ≡ Some (T.origin value) }

        ensures added { pass.new ≡ released_pass T.list pass.old value }
    {
        put_in(&self.board, &mut pass.seat, value);
        raise(&self.board, &mut pass.seat);
        self.board.shared.wake_all(1);
        pass.holds = false;
    }
}
