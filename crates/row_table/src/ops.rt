//! What may be asked of a table of rows, and what it answers.

use crate::Row;
use heat_plan::{EngineNo, ResName, RowNo, Seq, StackName};

/// One call of a table of rows.
#[derive(Debug)]
pub enum RowOp {
    Get(RowNo),
    Current(StackName, ResName),
    Head(RowNo),
    OfStack(StackName),
    Put(Row),
    Set(Row),
    Purge(RowNo),
    Lock(RowNo, EngineNo),
    Unlock(RowNo),
    Reserve(usize),
}

impl Drop for RowOp {
    fn drop(self) {
        match self {
            RowOp::Get(_) => {}
            RowOp::Current(_, _) => {}
            RowOp::Head(_) => {}
            RowOp::OfStack(_) => {}
            RowOp::Put(_) => {}
            RowOp::Set(_) => {}
            RowOp::Purge(_) => {}
            RowOp::Lock(_, _) => {}
            RowOp::Unlock(_) => {}
            RowOp::Reserve(_) => {}
        }
    }
}

/// What a call gives, copied; `Done` where it gives nothing, and `Barred` where its condition doesn't hold
/// and it isn't made.
#[derive(Debug, Drop)]
pub enum RowAnswer {
    Got(Option<Row>),
    Current(Option<RowNo>),
    Head(RowNo),
    Rows(Seq<RowNo>),
    Done,
    Barred,
}
