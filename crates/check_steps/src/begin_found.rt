//! What a begin at an update node finds in the state.

use core_state::{Job, Point, Row, Stack};
use heat_plan::{Item, Plan, RowNo};
use heat_value::Seq;

/// A job with its stack, the stack's plan, the item that the job's node is about, the job's row,
/// the node's point, and the rows that the node was given, rising.
#[derive(Drop)]
pub(crate) struct Found<'a> {
    pub job: &'a Job,
    pub stack: &'a Stack,
    pub plan: &'a Plan,
    pub item: &'a Item,
    pub row: &'a Row,
    pub point: &'a Point,
    pub required: Seq<RowNo>,
}
