//! The entries since the opening, with room for the one that closes the input.
ghost use Rattle.std.specs.Prelude.{◌≡◌, ◌<◌, ◌≤◌, ◌+◌, ◌++◌, ◌∷◌, ◌↔◌, [], IfOk, IsTrue, OnOk};
ghost use Rattle.core_state.specs.declared.entry.What.TheVariants as what;
ghost use Rattle.step_relation.specs.Runs.{IsClosed};
ghost use Rattle.book.specs.Closing.{Closes};

use core_state::{Actor, Entry, Roomed, What};
use std::alloc::{AllocError, Global};
use std::marker::Model;

/// Entries. The room that it shows is for others: until the input is closed there is room for Closed too.
#[derive(Debug, Drop)]
pub(crate) struct History {
    entries: Roomed<Entry>,
    closed: bool,
}

impl Model for History {
    ghost use Rattle.std.specs.Coded.{codes};
    ghost use Rattle.std.specs.Prelude.{◌-◌, ◌≡◌, ◌≤◌, ◌↔◌, IsTrue, false};
    ghost use Rattle.heat_value.specs.Code.{data_code, members_code};
    ghost use Rattle.core_state.specs.declared.entry.Entry.{Entry as entry_type};
    ghost use Rattle.keyed_table.specs.Rooms.{Roomy};
    ghost use Rattle.step_relation.specs.Runs.{IsClosed};

    ghost Value = { Roomy entry_type };

    ghost coded = { Prim.hlevel (codes, data_code, members_code) };

    ghost view = { λ h. record { items = h.entries.items; spare = h.entries.spare - 1 } };

    ghost invariant = { λ h. (IsTrue h.closed ↔ IsClosed h.entries.items)
        × (h.closed ≡ false → 1 ≤ h.entries.spare) };
}

impl History {
    /// No entry.
    pub(crate) fn new(alloc: Global) -> Result<History, AllocError>
        ensures { IfOk result (λ h. h.items ≡ []) }
    {
        let mut entries = Roomed::new(alloc);
        entries.reserve(1)?;
        Ok(History {
            entries,
            closed: false,
        })
    }

    /// The entries.
    pub(crate) fn as_slice(&self) -> &[Entry]
        ensures { result.now ≡ self.now.items }
    {
        self.entries.as_slice()
    }

    /// Makes room for so many more.
    pub(crate) fn reserve(&mut self, more: usize) -> Result<(), AllocError>
        ensures same { self.new.items ≡ self.old.items }
        ensures room { OnOk result (more ≤ self.new.spare) }
        ensures keeps { self.old.spare ≤ self.new.spare }
    {
        let Some(all) = more.checked_add(1) else {
            return Err(AllocError);
        };
        self.entries.reserve(all)
    }

    /// Puts an entry behind the last, within the room.
    pub(crate) fn push(&mut self, entry: Entry)
        requires { 0 < self.old.spare }
        ensures items { self.new.items ≡ self.old.items ++ entry ∷ [] }
        ensures room { self.old.spare ≤ self.new.spare + 1 }
    {
        let closes = is_closing(&entry);
        self.closed = self.closed || closes;
        self.entries.push(entry);
    }

    /// Whether the input was closed.
    pub(crate) fn is_closed(&self) -> bool
        ensures { IsTrue result ↔ IsClosed self.now.items }
    {
        self.closed
    }

    /// Closes the input, where it wasn't closed. It takes no memory.
    pub(crate) fn close(&mut self)
        ensures { Closes self.old.items self.new.items }
    {
        if self.closed {
            return;
        }
        self.closed = true;
        self.entries.push(Entry {
            by: Actor::Main,
            what: What::Closed,
        });
    }
}

// Whether an entry closes the input.
fn is_closing(entry: &Entry) -> bool
    ensures { IsTrue result ↔ (entry.now.what ≡ what.Closed) }
{
    matches!(entry.what, What::Closed)
}
