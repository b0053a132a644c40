//! Whether each number that stands in a record is below the next one of its sort.
ghost use Rattle.std.specs.Prelude.{◌≡◌, ◌<◌, ◌↔◌, All, IsTrue};
ghost use Rattle.core_state.specs.declared.Input.{Input as input_type};
ghost use Rattle.step_relation.specs.Numbered.{AllBelow, BelowIfThere, GraphBelow, JobBelow, LetterBelow, RowBelow};
ghost use Rattle.step_relation.specs.Numbered.{StackBelow, row_of};
ghost use Rattle.state_images.specs.Formed.{IsAligned};
ghost use Rattle.state_images.specs.Ties.{HasLowInputs, HasLowRow, NamedBelow, OwnBelow};

use core_state::{Graph, Job, Letter, Node, Numbers, Row, SharedInput, Stack};
use heat_plan::{EngineNo, RowNo, Seq};

// Whether a stack's number and its traversal were drawn.
pub(crate) fn stack_is_below(stack: &Stack, next: &Numbers) -> bool
    ensures { IsTrue result ↔ StackBelow next.now.stack next.now.trav stack.now }
{
    stack.no.get() < next.stack.get() && stack.trav.get() < next.trav.get()
}

// Whether a letter's number and its traversal were drawn.
pub(crate) fn letter_is_below(letter: &Letter, next: &Numbers) -> bool
    ensures { IsTrue result ↔ LetterBelow next.now.letter next.now.trav letter.now }
{
    letter.no.get() < next.letter.get() && letter.trav.get() < next.trav.get()
}

// Whether a job's engine and row were drawn, and what its letter has.
pub(crate) fn job_is_below(job: &Job, next: &Numbers) -> bool
    ensures { IsTrue result
        ↔ JobBelow next.now.engine next.now.row next.now.letter next.now.trav job.now }
{
    job.engine.get() < next.engine.get()
        && job.row.get() < next.row.get()
        && letter_is_below(&job.letter, next)
}

// Whether all numbers of a row were drawn.
pub(crate) fn row_is_below(row: &Row, next: &Numbers) -> bool
    ensures { IsTrue result ↔ RowBelow next.now.row next.now.trav next.now.engine row.now }
{
    own_are_below(row, next) && named_are_below(row, next.row.get())
}

// Whether the row's number, its traversal and its engine were.
fn own_are_below(row: &Row, next: &Numbers) -> bool
    ensures { IsTrue result ↔ OwnBelow next.now.row next.now.trav next.now.engine row.now }
{
    row.no.get() < next.row.get()
        && row.trav.get() < next.trav.get()
        && engine_below(row.engine, next.engine.get())
}

// Whether the rows that it names were.
fn named_are_below(row: &Row, next: u64) -> bool
    ensures { IsTrue result ↔ NamedBelow next row.now }
{
    are_below(&row.requires_, next)
        && row_below(row.replaces, next)
        && row_below(row.replaced_by, next)
}

// Whether each number is below this one.
fn are_below(rows: &Seq<RowNo>, next: u64) -> bool
    ensures { IsTrue result ↔ AllBelow next rows.now }
{
    for row in rows.as_slice() {
        if next <= row.get() {
            return false;
        }
    }
    true
}

// Whether the number, if there is one, is below this one.
fn row_below(row: Option<RowNo>, next: u64) -> bool
    ensures { IsTrue result ↔ BelowIfThere next row }
{
    match row {
        Some(row) => row.get() < next,
        None => true,
    }
}

// Whether the number, if there is one, is below this one.
fn engine_below(engine: Option<EngineNo>, next: u64) -> bool
    ensures { IsTrue result ↔ BelowIfThere next engine }
{
    match engine {
        Some(engine) => engine.get() < next,
        None => true,
    }
}

// Whether the rows of a graph's nodes and of what its points were given were drawn.
#[tactic(auto, using(crate::proofs::Below::graph_below))]
pub(crate) fn graph_is_below(graph: &Graph, next: u64) -> bool
    requires { IsAligned graph.now }
    ensures { IsTrue result ↔ GraphBelow next graph.now }
{
    nodes_are_below(graph.graph.nodes.as_slice(), next) && points_are_below(graph, next)
}

fn nodes_are_below(nodes: &[Node], next: u64) -> bool
    ensures { IsTrue result ↔ All (HasLowRow next) nodes.now }
{
    for node in nodes {
        if next <= number_of(node) {
            return false;
        }
    }
    true
}

// The number of the row that a node names.
pub(crate) fn number_of(node: &Node) -> u64
    ensures { result ≡ row_of node.now }
{
    match node {
        Node::U(_, row) | Node::C(row) => row.get(),
    }
}

fn points_are_below(graph: &Graph, next: u64) -> bool
    requires { IsAligned graph.now }
    ensures { IsTrue result ↔ All (HasLowInputs next) graph.now.points }
{
    for place in 0..graph.graph.nodes.len() {
        if let Some(point) = graph.points.get(place) {
            if !inputs_are_below(point.inputs.as_slice(), next) {
                return false;
            }
        }
    }
    true
}

fn inputs_are_below(inputs: &[SharedInput], next: u64) -> bool
    ensures { IsTrue result ↔ All (λ (x : input_type). x.row < next) inputs.now }
{
    for input in inputs {
        if next <= input.input().row.get() {
            return false;
        }
    }
    true
}
