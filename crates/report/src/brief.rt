//! What a report keeps of a row and of a stack.
ghost use Rattle.std.specs.Prelude.{◌≡◌, IfOk};
ghost use Rattle.report.specs.Seen.{row_seen, stack_seen};

use core_state::{Row, SharedPlan, Stack};
use heat_plan::{Act, Facts, ResName, RowNo, StackName, Status, TravNo};
use heat_value::{Text, TryCopy, copy_option};
use keyed_table::Ordered;
use std::alloc::AllocError;
use std::cmp::Ordering;

/// What is shown of a row, and its facts, which outputs may read.
#[derive(Debug)]
pub(crate) struct SeenRow {
    pub(crate) stack: StackName,
    pub(crate) name: ResName,
    pub(crate) no: RowNo,
    pub(crate) kind: Text,
    pub(crate) act: Act,
    pub(crate) status: Status,
    pub(crate) facts: Option<Facts>,
    pub(crate) replaces: Option<RowNo>,
    pub(crate) replaced_by: Option<RowNo>,
}

impl Drop for SeenRow {
    fn drop(self) {
        let SeenRow {
            stack: _,
            name: _,
            no: _,
            kind: _,
            act: _,
            status: _,
            facts: _,
            replaces: _,
            replaced_by: _,
        } = self;
    }
}

/// What is shown of a stack: its newest traversal, how it stands, and the plan whose outputs it has.
#[derive(Debug)]
pub(crate) struct SeenStack {
    pub(crate) name: StackName,
    pub(crate) trav: TravNo,
    pub(crate) act: Act,
    pub(crate) status: Status,
    pub(crate) plan: Option<SharedPlan>,
}

impl Drop for SeenStack {
    fn drop(self) {
        let SeenStack {
            name: _,
            trav: _,
            act: _,
            status: _,
            plan: _,
        } = self;
    }
}

impl SeenRow {
    /// A row in brief.
    pub(crate) fn of(row: &Row) -> Result<SeenRow, AllocError>
        ensures { IfOk result (λ s. s ≡ row_seen row.now) }
    {
        Ok(SeenRow {
            stack: row.stack.copy()?,
            name: row.name.copy()?,
            no: row.no,
            kind: row.kind.name.copy()?,
            act: row.act,
            status: row.status,
            facts: copy_option(&row.facts)?,
            replaces: row.replaces,
            replaced_by: row.replaced_by,
        })
    }
}

impl SeenStack {
    /// A stack in brief.
    pub(crate) fn of(stack: &Stack) -> Result<SeenStack, AllocError>
        ensures { IfOk result (λ s. s ≡ stack_seen stack.now) }
    {
        Ok(SeenStack {
            name: stack.name.copy()?,
            trav: stack.trav,
            act: stack.act,
            status: stack.status,
            plan: copy_option(&stack.plan)?,
        })
    }
}

impl Ordered for SeenRow {
    type Key = RowNo;

    ghost use Rattle.std.specs.Ordering.{nat_cmp};
    ghost use Rattle.std.specs.Cmp.{nat_cmp_total};
    ghost use Rattle.report.specs.Seen.{row_key};

    ghost key_of = { row_key };

    ghost order = { nat_cmp };

    ghost total = { nat_cmp_total };

    fn key(&self) -> &RowNo {
        &self.no
    }

    fn compare(&self, key: &RowNo) -> Ordering {
        self.no.get().cmp(&key.get())
    }
}

impl Ordered for SeenStack {
    type Key = StackName;

    ghost use Rattle.std.specs.Ordering.{nat_cmp};
    ghost use Rattle.std.specs.Cmp.Lexicographic.{slice_cmp, nat_list_cmp_total};
    ghost use Rattle.report.specs.Seen.{stack_key};

    ghost key_of = { stack_key };

    ghost order = { slice_cmp nat_cmp };

    ghost total = { nat_list_cmp_total };

    fn key(&self) -> &StackName {
        &self.name
    }

    fn compare(&self, key: &StackName) -> Ordering {
        self.name.cmp(key)
    }
}
