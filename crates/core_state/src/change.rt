//! The changes that a step makes to a state.

use crate::numbers::Numbers;
use crate::past::Past;
use crate::stack::Stack;
use heat_plan::{EngineNo, LetterNo, RowNo, StackName, Token};
use mail_table::{Job, Letter};
use row_table::Row;
use sync_points::Point;
use traversal_graph::TravGraph;

/// One change of a state. A stack that is dropped takes its graph, its points and its past along. A
/// graph that is put gets a point without inputs for each node, in the place of the old graph and its
/// points. A point that is put belongs to a node that is there.
#[derive(Debug, Drop)]
pub enum Change {
    /// A stack is written, new or over the one of its name.
    PutStack(Stack),
    /// A stack goes, with its graph, its points and its past.
    DropStack(StackName),
    /// A row is written, new or over the one of its number.
    PutRow(Row),
    /// A row goes.
    DropRow(RowNo),
    /// A stack gets a graph; its old points go, and the new ones are empty.
    PutGraph(StackName, TravGraph),
    /// What a node was given, and whether it is done.
    PutPoint(Point),
    /// A letter waits.
    Send(Letter),
    /// A letter waits no longer.
    Drop(LetterNo),
    /// An engine has a job, in the place of an older one.
    PutJob(Job),
    /// An engine has no job any more.
    EndJob(EngineNo),
    /// An engine is live.
    Enlist(EngineNo),
    /// An engine is live no longer.
    Stop(EngineNo),
    /// The next numbers, none of which falls.
    Numbers(Numbers),
    /// What a stack could go back to.
    PutPast(Past),
    /// A token is given up: its resource stays, and is nobody's.
    Release(Token),
}
