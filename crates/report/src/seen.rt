//! The rows and stacks that a history has shown so far, each write over them, and the way back.
ghost use Rattle.std.specs.Prelude.{◌≡◌, ◌+◌, ◌≤◌, [], OnOk, IfOk, length, option_map};
ghost use Rattle.std.specs.Ordering.{nat_cmp};
ghost use Rattle.std.specs.Cmp.Lexicographic.{slice_cmp};
ghost use Rattle.keyed_table.specs.Lists.{put, cut, restored};
ghost use Rattle.report.specs.Seen.{row_key, stack_key, row_at, stack_at, rows_seen, stacks_seen, seen_of, with_rows};
ghost use Rattle.report.specs.Seen.{with_stacks};
ghost use Rattle.report.specs.Undone.{shown, undone, unwound, CanUnwind, HasRoom};

use crate::brief::{SeenRow, SeenStack};
use crate::log::{Log, Was};
use core_state::{Row, Stack, State};
use heat_plan::{RowNo, StackName};
use keyed_table::SortedList;
use std::alloc::{AllocError, Global};

/// All that is seen, rows by their numbers and stacks by their names.
#[derive(Debug)]
pub(crate) struct Seen {
    pub(crate) rows: SortedList<SeenRow>,
    pub(crate) stacks: SortedList<SeenStack>,
}

impl Drop for Seen {
    fn drop(self) {
        let Seen { rows: _, stacks: _ } = self;
    }
}

impl Seen {
    /// What is seen in a state.
    pub(crate) fn of(alloc: Global, state: &State) -> Result<Seen, AllocError>
        ensures { IfOk result (λ s. shown s ≡ seen_of state.now.state) }
    {
        Ok(Seen {
            rows: rows_of(alloc, state.rows())?,
            stacks: stacks_of(alloc, state.stacks())?,
        })
    }

    /// Makes room for one thing more, and for the way back.
    pub(crate) fn reserve(&mut self, log: &mut Log) -> Result<(), AllocError>
        requires back { CanUnwind log.old self.old }
        ensures log { log.new.items ≡ log.old.items }
        ensures same { shown self.new ≡ shown self.old }
        ensures back { CanUnwind log.new self.new }
        ensures room { OnOk result (HasRoom log.new self.new) }
    {
        let Some(more) = log.len().checked_add(2) else {
            return Err(AllocError);
        };
        self.rows.reserve(more)?;
        self.stacks.reserve(more)?;
        log.reserve()
    }

    /// Sees a row.
    pub(crate) fn put_row(&mut self, log: &mut Log, row: SeenRow)
        requires room { HasRoom log.old self.old }
        ensures seen { shown self.new
            ≡ with_rows (shown self.old) (put nat_cmp row_key row self.old.rows.items) }
        ensures undone { unwound log.new.items (shown self.new)
            ≡ unwound log.old.items (shown self.old) }
        ensures back { CanUnwind log.new self.new }
    {
        let no = row.no;
        let before = self.rows.put(row);
        log.push(Was::Row(no, before));
    }

    /// Sees that a row is gone.
    pub(crate) fn cut_row(&mut self, log: &mut Log, no: RowNo)
        requires room { HasRoom log.old self.old }
        ensures seen { shown self.new
            ≡ with_rows (shown self.old) (cut nat_cmp row_key no self.old.rows.items) }
        ensures undone { unwound log.new.items (shown self.new)
            ≡ unwound log.old.items (shown self.old) }
        ensures back { CanUnwind log.new self.new }
    {
        let before = self.rows.cut(&no);
        log.push(Was::Row(no, before));
    }

    /// Sees a stack, whose name is given once more.
    pub(crate) fn put_stack(&mut self, log: &mut Log, name: StackName, stack: SeenStack)
        requires room { HasRoom log.old self.old }
        requires name { name ≡ stack.name }
        ensures seen { shown self.new ≡ with_stacks (shown self.old)
            (put (slice_cmp nat_cmp) stack_key stack self.old.stacks.items) }
        ensures undone { unwound log.new.items (shown self.new)
            ≡ unwound log.old.items (shown self.old) }
        ensures back { CanUnwind log.new self.new }
    {
        let before = self.stacks.put(stack);
        log.push(Was::Stack(name, before));
    }

    /// Sees that a stack is gone.
    pub(crate) fn cut_stack(&mut self, log: &mut Log, name: StackName)
        requires room { HasRoom log.old self.old }
        ensures seen { shown self.new ≡ with_stacks (shown self.old)
            (cut (slice_cmp nat_cmp) stack_key name self.old.stacks.items) }
        ensures undone { unwound log.new.items (shown self.new)
            ≡ unwound log.old.items (shown self.old) }
        ensures back { CanUnwind log.new self.new }
    {
        let before = self.stacks.cut(&name);
        log.push(Was::Stack(name, before));
    }

    /// Takes all back that was written.
    pub(crate) fn unwind(&mut self, mut log: Log)
        requires back { CanUnwind log self.old }
        ensures { shown self.new ≡ unwound log.items (shown self.old) }
    {
        while let Some(was) = log.pop() {
            self.undo(was);
        }
    }

    // Puts back what stood there before.
    fn undo(&mut self, was: Was)
        requires rows { 1 ≤ self.old.rows.spare }
        requires stacks { 1 ≤ self.old.stacks.spare }
        ensures seen { shown self.new ≡ undone was (shown self.old) }
        ensures rows { self.old.rows.spare ≤ self.new.rows.spare + 1 }
        ensures stacks { self.old.stacks.spare ≤ self.new.stacks.spare + 1 }
    {
        match was {
            Was::Row(no, before) => restore_row(&mut self.rows, no, before),
            Was::Stack(name, before) => restore_stack(&mut self.stacks, name, before),
        }
    }
}

// Puts back what a number had before.
fn restore_row(rows: &mut SortedList<SeenRow>, no: RowNo, before: Option<SeenRow>)
    requires { 1 ≤ rows.old.spare }
    ensures items { rows.new.items ≡ restored nat_cmp row_key no before rows.old.items }
    ensures room { rows.old.spare ≤ rows.new.spare + 1 }
{
    match before {
        Some(row) => {
            let _ = rows.put(row);
        }
        None => {
            let _ = rows.cut(&no);
        }
    }
}

// Puts back what a name had before.
fn restore_stack(stacks: &mut SortedList<SeenStack>, name: StackName, before: Option<SeenStack>)
    requires { 1 ≤ stacks.old.spare }
    ensures items { stacks.new.items ≡ restored (slice_cmp nat_cmp) stack_key name before stacks.old.items }
    ensures room { stacks.old.spare ≤ stacks.new.spare + 1 }
{
    match before {
        Some(stack) => {
            let _ = stacks.put(stack);
        }
        None => {
            let _ = stacks.cut(&name);
        }
    }
}

// Rows in brief, by their numbers.
fn rows_of(alloc: Global, rows: &[Row]) -> Result<SortedList<SeenRow>, AllocError>
    ensures { IfOk result (λ list. list.items ≡ rows_seen [] rows.now) }
{
    let mut list = SortedList::new(alloc);
    for row in rows {
        list.reserve(1)?;
        let _ = list.put(SeenRow::of(row)?);
    }
    Ok(list)
}

// Stacks in brief, by their names.
fn stacks_of(alloc: Global, stacks: &[Stack]) -> Result<SortedList<SeenStack>, AllocError>
    ensures { IfOk result (λ list. list.items ≡ stacks_seen [] stacks.now) }
{
    let mut list = SortedList::new(alloc);
    for stack in stacks {
        list.reserve(1)?;
        let _ = list.put(SeenStack::of(stack)?);
    }
    Ok(list)
}
