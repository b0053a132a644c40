//! New rows: one on which nothing has been done, and one that takes another's place.
ghost use Rattle.std.specs.Prelude.{◌≡◌, IfOk};
ghost use Rattle.step_relation.specs.Rows.{new_row, replacement};

use core_state::{Row, Stack};
use heat_plan::{Act, EngineNo, Item, Properties, RowNo, StackName, Status, TravNo};
use heat_value::{Seq, TryCopy};
use std::alloc::{AllocError, Global};

/// A row for an item on which nothing has been done.
pub fn new_row(
    alloc: Global,
    stack: &StackName,
    trav: TravNo,
    number: RowNo,
    item: &Item,
) -> Result<Row, AllocError>
    ensures { IfOk result (λ r. r ≡ new_row stack.now trav number item.now) }
{
    Ok(Row {
        no: number,
        stack: stack.copy()?,
        name: item.name.copy()?,
        kind: item.kind.copy()?,
        act: Act::Init,
        status: Status::Complete,
        trav,
        props: Properties::new(alloc),
        target: None,
        facts: None,
        requires_: Seq::new(alloc),
        replaces: None,
        replaced_by: None,
        engine: None,
        key: 0,
        policy: item.policy,
    })
}

/// A row to be created in the place of the row `old`, by the engine `e`, in the stack's traversal.
pub fn replacement(
    number: RowNo,
    e: EngineNo,
    stack: &Stack,
    item: &Item,
    props: &Properties,
    required: &Seq<RowNo>,
    old: &Row,
) -> Result<Row, AllocError>
    ensures { IfOk result (λ r. r ≡
        replacement number e stack.now.trav stack.now.name item.now props.now required.now old.now) }
{
    let required = Vec::from_slice(required.allocator(), required.as_slice())?;
    Ok(Row {
        no: number,
        stack: stack.name.copy()?,
        name: item.name.copy()?,
        kind: item.kind.copy()?,
        act: Act::Create,
        status: Status::InProgress,
        trav: stack.trav,
        props: props.copy()?,
        target: None,
        facts: None,
        requires_: Seq::from_vec(required),
        replaces: Some(old.no),
        replaced_by: None,
        engine: Some(e),
        key: 1,
        policy: item.policy,
    })
}
