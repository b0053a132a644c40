//! The table of rows, as those above it use it.
ghost use Rattle.std.specs.Prelude.{◌≡◌, ◌<◌, ◌≤◌, ◌+◌, None, Some, IsOk, IfOk, IsSome, OnOk, OnErr, option_map};
ghost use Rattle.keyed_table.specs.Rooms.{Roomy};
ghost use Rattle.row_table.specs.declared.row.Row.{Row};
ghost use Rattle.row_table.specs.Rows.{row_at, put_row, cut_row};
ghost use Rattle.row_table.specs.Chains.{Leads};
ghost use Rattle.row_table.specs.Found.{IsCurrentOf, AreOfStack};
ghost use Rattle.row_table.specs.Locks.{IsLockable, held};

use crate::Row;
use crate::chain::next_of_chain;
use heat_plan::{EngineNo, ResName, RowNo, Seq, StackName};
use std::alloc::{AllocError, Global};

/// Rows in the order in which their numbers came.
pub trait Rows {
    /// The rows, and how many more fit with no memory wanted.
    ghost content: { Self → Roomy Row };

    /// All rows.
    fn rows(&self) -> &[Row]
        ensures { result.now ≡ (content self.now).items };

    /// The row of this number; none where none stands.
    fn get(&self, no: RowNo) -> Option<&Row>
        ensures { option_map (λ r. r.now) result ≡ row_at (content self.now).items no };

    /// The number of the name's current row, of several the greatest.
    fn current(&self, stack: &StackName, name: &ResName) -> Option<RowNo>
        ensures { IsCurrentOf (content self.now).items stack.now name.now result };

    /// The number of the row in which the row's chain of replacements ends.
    fn head(&self, no: RowNo) -> RowNo
        requires { IsSome (row_at (content self.now).items no) }
        ensures { Leads (content self.now).items no result }
    {
        let mut last = no;
        while let Some(next) = next_of_chain(self.get(last)) {
            if self.get(next).is_none() {
                return last;
            }
            last = next;
        }
        last
    }

    /// The numbers of the stack's rows, rising.
    fn of_stack(&self, alloc: Global, stack: &StackName) -> Result<Seq<RowNo>, AllocError>
        ensures { IfOk result (λ nos. AreOfStack (content self.now).items stack.now nos) };

    /// Makes room for so many more.
    fn reserve(&mut self, more: usize) -> Result<(), AllocError>
        ensures same { (content self.new).items ≡ (content self.old).items }
        ensures room { OnOk result (more ≤ (content self.new).spare) }
        ensures keeps { (content self.old).spare ≤ (content self.new).spare }
        ensures enough { more ≤ (content self.old).spare → IsOk result };

    /// Writes a row over the one of its number, or behind all others; within the room it takes no memory.
    fn put(&mut self, row: Row) -> Result<(), AllocError>
        ensures ok { OnOk result ((content self.new).items ≡ put_row row (content self.old).items) }
        ensures same { OnErr result ((content self.new).items ≡ (content self.old).items) }
        ensures within { 0 < (content self.old).spare → IsOk result }
        ensures room { (content self.old).spare ≤ (content self.new).spare + 1 };

    /// Writes a row over the one of its number, without memory.
    fn set(&mut self, row: Row)
        requires { IsSome (row_at (content self.old).items row.no) }
        ensures items { (content self.new).items ≡ put_row row (content self.old).items }
        ensures room { (content self.old).spare ≤ (content self.new).spare };

    /// Drops the row of this number, if it stands.
    fn purge(&mut self, no: RowNo)
        ensures items { (content self.new).items ≡ cut_row no (content self.old).items }
        ensures room { (content self.old).spare ≤ (content self.new).spare };

    /// Gives the row to the engine; its key counts on.
    fn lock(&mut self, no: RowNo, engine: EngineNo)
        requires { IsLockable (content self.old).items no }
        ensures items { (r : Row) → row_at (content self.old).items no ≡ Some r
            → (content self.new).items ≡ put_row (held (Some engine) r) (content self.old).items }
        ensures room { (content self.old).spare ≤ (content self.new).spare };

    /// Frees the row; its key counts on.
    fn unlock(&mut self, no: RowNo)
        requires { IsLockable (content self.old).items no }
        ensures items { (r : Row) → row_at (content self.old).items no ≡ Some r
            → (content self.new).items ≡ put_row (held None r) (content self.old).items }
        ensures room { (content self.old).spare ≤ (content self.new).spare };
}
