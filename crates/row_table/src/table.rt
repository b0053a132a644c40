//! The indexed form of the table of rows.
ghost use Rattle.std.specs.Prelude.{◌≡◌, ◌<◌, ◌≤◌, ◌+◌, ◌++◌, ◌∷◌, []};
ghost use Rattle.std.specs.Prelude.{false, Some, All, IfOk, nat_eq, option_map};
ghost use Rattle.std.specs.Prelude.{length, remove, slice_get, slice_set};
ghost use Rattle.row_table.specs.declared.row.Row.{Row};
ghost use Rattle.row_table.specs.Rows.{row_at, row_key, put_row, cut_row};
ghost use Rattle.row_table.specs.Locks.{IsLockable, held};

use crate::Row;
use crate::by_name::{end_of_name, enter_by_name, leave_by_name, start_of_name};
use crate::by_stack::{end_of_stack, enter_by_stack, leave_by_stack, start_of_stack};
use crate::current::is_current;
use crate::hold::Hold;
use crate::rows::Rows;
use heat_plan::{EngineNo, ResName, RowNo, Seq, StackName};
use keyed_table::{Keyed, Roomed, Table, close_up};
use std::alloc::{AllocError, Global};
use std::marker::Model;

/// Rows in the order in which their numbers came, found by number, by stack and name, and by stack: the
/// places of the rows, sorted by stack, name and number, and by stack and number.
#[derive(Debug)]
pub struct RowTable {
    rows: Table<Row>,
    by_name: Roomed<usize>,
    by_stack: Roomed<usize>,
}

impl Drop for RowTable {
    fn drop(self) {
        let RowTable {
            rows: _,
            by_name: _,
            by_stack: _,
        } = self;
    }
}

impl Model for RowTable {
    ghost use Rattle.std.specs.Prelude.{min, map};
    ghost use Rattle.keyed_table.specs.Rooms.{Roomy};
    ghost use Rattle.keyed_table.specs.Orders.{IsOrder};
    ghost use Rattle.row_table.specs.declared.row.Row.{Row};
    ghost use Rattle.std.specs.Coded.{codes};
    ghost use Rattle.heat_plan.specs.Code.{data_code, members_code};

    ghost Value = { Roomy Row };

    ghost coded = { Prim.hlevel (codes, data_code, members_code) };

    ghost view = { λ t. record { items = t.rows.items; spare = min t.rows.spare (min t.by_name.spare t.by_stack.spare) } };

    ghost use Rattle.row_table.specs.Keys.{name_key, name_below, stack_key, stack_below};

    ghost invariant = { λ t. IsOrder name_below (map name_key t.rows.items) t.by_name.items
        × IsOrder stack_below (map stack_key t.rows.items) t.by_stack.items };
}

impl RowTable {
    /// No row, and no room.
    pub fn new(alloc: Global) -> RowTable
        ensures { result.items ≡ [] }
    {
        RowTable {
            rows: Table::new(alloc),
            by_name: Roomed::new(alloc),
            by_stack: Roomed::new(alloc),
        }
    }

    /// The same rows, with room of its own.
    pub fn copy(&self) -> Result<RowTable, AllocError>
        ensures { IfOk result (λ copy. copy.items ≡ self.now.items) }
    {
        Ok(RowTable {
            rows: self.rows.copy()?,
            by_name: self.by_name.copied()?,
            by_stack: self.by_stack.copied()?,
        })
    }

    /// Writes a row over the one of its number, or behind all others, within the room.
    pub fn put_row(&mut self, row: Row)
        requires { 0 < self.old.spare }
        ensures items { self.new.items ≡ put_row row self.old.items }
        ensures room { self.old.spare ≤ self.new.spare + 1 }
    {
        match self.rows.find(row.key()) {
            Some(place) => self.write(place, row),
            None => self.push(row),
        }
    }

    // Writes a row over the one of its number at this place: its entries go to where the new stack and
    // name have them.
    fn write(&mut self, place: usize, row: Row)
        requires within { place < length self.old.items }
        requires same_key { option_map row_key (slice_get self.old.items place) ≡ Some row.no }
        ensures items { self.new.items ≡ slice_set self.old.items place row }
        ensures room { self.old.spare ≤ self.new.spare }
    {
        leave_by_name(&mut self.by_name, self.rows.as_slice(), place);
        leave_by_stack(&mut self.by_stack, self.rows.as_slice(), place);
        self.rows.set(place, row);
        enter_by_name(&mut self.by_name, self.rows.as_slice(), place);
        enter_by_stack(&mut self.by_stack, self.rows.as_slice(), place);
    }

    // Puts a row of a new number behind all others, within the room.
    fn push(&mut self, row: Row)
        requires room { 0 < self.old.spare }
        requires new_key { All (λ (x : Row). nat_eq x.no row.no ≡ false) self.old.items }
        ensures items { self.new.items ≡ self.old.items ++ row ∷ [] }
        ensures room { self.old.spare ≤ self.new.spare + 1 }
    {
        let place = self.rows.as_slice().len();
        self.rows.push(row);
        enter_by_name(&mut self.by_name, self.rows.as_slice(), place);
        enter_by_stack(&mut self.by_stack, self.rows.as_slice(), place);
    }

    // Drops the row at this place.
    fn remove(&mut self, place: usize)
        requires { place < length self.old.items }
        ensures rest { self.new.items ≡ remove self.old.items place }
        ensures room { self.old.spare ≤ self.new.spare }
    {
        leave_by_name(&mut self.by_name, self.rows.as_slice(), place);
        leave_by_stack(&mut self.by_stack, self.rows.as_slice(), place);
        let _ = self.rows.remove(place);
        let left = self.rows.as_slice().len();
        close_up(&mut self.by_name, place, left);
        close_up(&mut self.by_stack, place, left);
    }

    // Gives the row to this engine, or to none.
    fn hold(&mut self, no: RowNo, engine: Option<EngineNo>)
        requires { IsLockable self.old.items no }
        ensures items { (r : Row) → row_at self.old.items no ≡ Some r
            → self.new.items ≡ put_row (held engine r) self.old.items }
        ensures room { self.old.spare ≤ self.new.spare }
    {
        if let Some(place) = self.rows.find(&no) {
            let key = self.rows.as_slice()[place].key + 1;
            self.rows.rewrite(place, Hold { engine, key });
        }
    }
}

impl Rows for RowTable {
    ghost content = { λ t. t };

    fn rows(&self) -> &[Row] {
        self.rows.as_slice()
    }

    fn get(&self, no: RowNo) -> Option<&Row> {
        self.rows.get(&no)
    }

    fn current(&self, stack: &StackName, name: &ResName) -> Option<RowNo> {
        let rows = self.rows.as_slice();
        let start = start_of_name(&self.by_name, rows, stack, name, 0);
        let end = end_of_name(&self.by_name, rows, stack, name);
        let entries = self.by_name.as_slice();
        for i in (start..end).rev() {
            let row = &rows[entries[i]];
            if is_current(row) {
                return Some(row.no);
            }
        }
        None
    }

    fn of_stack(&self, alloc: Global, stack: &StackName) -> Result<Seq<RowNo>, AllocError> {
        let rows = self.rows.as_slice();
        let start = start_of_stack(&self.by_stack, rows, stack, 0);
        let end = end_of_stack(&self.by_stack, rows, stack);
        let entries = self.by_stack.as_slice();
        let mut nos = Seq::new(alloc);
        for i in start..end {
            nos.push(rows[entries[i]].no)?;
        }
        Ok(nos)
    }

    fn reserve(&mut self, more: usize) -> Result<(), AllocError> {
        self.rows.reserve(more)?;
        self.by_name.reserve(more)?;
        self.by_stack.reserve(more)
    }

    fn put(&mut self, row: Row) -> Result<(), AllocError> {
        self.reserve(1)?;
        self.put_row(row);
        Ok(())
    }

    fn set(&mut self, row: Row) {
        if let Some(place) = self.rows.find(row.key()) {
            self.write(place, row);
        }
    }

    fn purge(&mut self, no: RowNo) {
        if let Some(place) = self.rows.find(&no) {
            self.remove(place);
        }
    }

    fn lock(&mut self, no: RowNo, engine: EngineNo) {
        self.hold(no, Some(engine));
    }

    fn unlock(&mut self, no: RowNo) {
        self.hold(no, None);
    }
}
