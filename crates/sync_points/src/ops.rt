//! What may be asked of points, and what they answer.

use crate::sync_point::Gathered;
use crate::{Input, SharedInput};
use heat_plan::Seq;

/// One call of points: the first number is the node's, the second that of the node before it.
#[derive(Debug)]
pub enum PointOp {
    Gather(u32, u32, Input),
    Inputs(u32),
    Finish(u32),
    IsDone(u32),
    Set(u32, Seq<SharedInput>, bool),
}

impl Drop for PointOp {
    fn drop(self) {
        match self {
            PointOp::Gather(_, _, _) => {}
            PointOp::Inputs(_) => {}
            PointOp::Finish(_) => {}
            PointOp::IsDone(_) => {}
            PointOp::Set(_, _, _) => {}
        }
    }
}

/// What a call gives, copied; `Done` where it gives nothing, and `Barred` where its condition doesn't hold
/// and it isn't made.
#[derive(Debug, Drop)]
pub enum PointAnswer {
    Gathered(Gathered),
    Inputs(Seq<SharedInput>),
    IsDone(bool),
    Done,
    Barred,
}
