//! The forms that a begin gives to its row, and that of a row that is ready.
ghost use Rattle.std.specs.Prelude.{◌≡◌, IfOk, unwrap_or};
ghost use Rattle.step_relation.specs.Rows.{created_row, deleted_row, ready_row, same_row, updated_row};

use core_state::Row;
use heat_plan::{Act, Facts, Item, Properties, RowNo, Status, TravNo};
use heat_value::{Seq, TryCopy};
use std::alloc::AllocError;

/// The row, to be created as the item asks, with these properties.
pub fn created_row(
    row: &Row,
    item: &Item,
    trav: TravNo,
    props: &Properties,
    required: &Seq<RowNo>,
) -> Result<Row, AllocError>
    ensures { IfOk result (λ r. r ≡ created_row row.now item.now trav props.now required.now) }
{
    let kind = item.kind.copy()?;
    let props = props.copy()?;
    let mut row = same_row(row, item, trav, required)?;
    row.act = Act::Create;
    row.status = Status::InProgress;
    row.kind = kind;
    row.props = props;
    Ok(row)
}

/// The row, kept as it is, for this traversal.
pub fn same_row(
    row: &Row,
    item: &Item,
    trav: TravNo,
    required: &Seq<RowNo>,
) -> Result<Row, AllocError>
    ensures { IfOk result (λ r. r ≡ same_row row.now item.now trav required.now) }
{
    let required = Vec::from_slice(required.allocator(), required.as_slice())?;
    let mut row = row.copy()?;
    row.trav = trav;
    row.requires_ = Seq::from_vec(required);
    row.policy = item.policy;
    Ok(row)
}

/// The row, to be updated in place to these properties.
pub fn updated_row(
    row: &Row,
    item: &Item,
    trav: TravNo,
    props: &Properties,
    required: &Seq<RowNo>,
) -> Result<Row, AllocError>
    ensures { IfOk result (λ r. r ≡ updated_row row.now item.now trav props.now required.now) }
{
    let props = props.copy()?;
    let mut row = same_row(row, item, trav, required)?;
    row.act = Act::Update;
    row.status = Status::InProgress;
    row.target = Some(props);
    Ok(row)
}

/// The row, to be deleted for this traversal.
pub fn deleted_row(row: &Row, trav: TravNo) -> Result<Row, AllocError>
    ensures { IfOk result (λ r. r ≡ deleted_row row.now trav) }
{
    let mut row = row.copy()?;
    row.act = Act::Delete;
    row.status = Status::InProgress;
    row.trav = trav;
    Ok(row)
}

/// The row of a resource that is ready, with its facts.
pub fn ready_row(row: &Row, facts: &Facts) -> Result<Row, AllocError>
    ensures { IfOk result (λ r. r ≡ ready_row row.now facts.now) }
{
    let props = final_props(row)?;
    let facts = facts.copy()?;
    let mut row = row.copy()?;
    row.status = Status::Complete;
    row.props = props;
    row.target = None;
    row.facts = Some(facts);
    Ok(row)
}

/// The properties that the row was to get, where there are any, else its own.
pub fn final_props(row: &Row) -> Result<Properties, AllocError>
    ensures { IfOk result (λ props. props ≡ unwrap_or row.now.target row.now.props) }
{
    match &row.target {
        Some(target) => target.copy(),
        None => row.props.copy(),
    }
}
