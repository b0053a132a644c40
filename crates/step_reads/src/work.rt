//! What a letter or a job is about, where it still has work.
ghost use Rattle.std.specs.Prelude.{◌≡◌, ◌↔◌, IsTrue, IsSome, IsNone, IfSome, Some, option_map};
ghost use Rattle.core_state.specs.Reads.{item_at};
ghost use Rattle.std.specs.Bool.{OnTrue, OnFalse};
ghost use Rattle.step_relation.specs.Freshness.{Names, Serves, IsOutdated, IsOverrun, plan_of};
ghost use Rattle.step_reads.specs.Work.{IsFreshOf, IsMeantOf, NamesNothing};

use crate::plans::item_of;
use crate::targets::target_of;
use core_state::{Graph, Job, Letter, Row, Stack, State};
use heat_plan::{Act, ResName, RowNo};
use traversal_graph::Node;

/// What a letter names in its stack's newest traversal.
#[derive(Clone, Copy)]
pub struct Named<'a> {
    pub stack: &'a Stack,
    pub graph: &'a Graph,
    pub node: &'a Node,
}

/// The work of a job: what its letter names, and its row if it stands.
#[derive(Clone, Copy)]
pub struct Fresh<'a> {
    pub stack: &'a Stack,
    pub graph: &'a Graph,
    pub node: &'a Node,
    pub row: Option<&'a Row>,
}

/// The work of a letter: the number of its node's target too.
#[derive(Clone, Copy)]
pub struct Meant<'a> {
    pub target: RowNo,
    pub stack: &'a Stack,
    pub graph: &'a Graph,
    pub node: &'a Node,
    pub row: Option<&'a Row>,
}

/// The work of a letter; none where it is outdated.
pub fn meaning<'a>(s: &'a State, letter: &Letter) -> Option<Meant<'a>>
    ensures some { IfSome result (λ m. IsMeantOf s.now.state letter.now m.target
        m.stack.now m.graph.now m.node.now (option_map (λ r. r.now) m.row)) }
    ensures none { IsNone result → IsOutdated s.now.state letter.now }
{
    let it = what_of(s, letter)?;
    let target = target_of(s, &letter.stack, it.node)?;
    let row = s.row(&target);
    if !serves(it.stack, it.node, row) {
        return None;
    }
    Some(Meant {
        target,
        stack: it.stack,
        graph: it.graph,
        node: it.node,
        row,
    })
}

/// The work of a job; none where it is overrun.
pub fn freshness<'a>(s: &'a State, job: &Job) -> Option<Fresh<'a>>
    ensures some { IfSome result (λ f. IsFreshOf s.now.state job.now.letter job.now.row
        f.stack.now f.graph.now f.node.now (option_map (λ r. r.now) f.row)) }
    ensures none { IsNone result → IsOverrun s.now.state job.now }
{
    let it = what_of(s, &job.letter)?;
    let row = s.row(&job.row);
    if !serves(it.stack, it.node, row) {
        return None;
    }
    Some(Fresh {
        stack: it.stack,
        graph: it.graph,
        node: it.node,
        row,
    })
}

/// What a letter names; none where its stack is gone or has another traversal, or has no such node.
pub fn what_of<'a>(s: &'a State, letter: &Letter) -> Option<Named<'a>>
    ensures some { IfSome result (λ n.
        Names s.now.state letter.now n.stack.now n.graph.now n.node.now) }
    ensures none { IsNone result → NamesNothing s.now.state letter.now }
{
    let stack = s.stack(&letter.stack)?;
    if stack.trav != letter.trav {
        return None;
    }
    let graph = s.graph(&letter.stack)?;
    let node = graph.graph.nodes.as_slice().get(letter.node as usize)?;
    Some(Named { stack, graph, node })
}

// Whether there is work at a node of a stack for this row.
fn serves(stack: &Stack, node: &Node, row: Option<&Row>) -> bool
    ensures yes { OnTrue result (Serves stack.now node.now (option_map (λ r. r.now) row.entry)) }
    ensures no_ { OnFalse result (¬ Serves stack.now node.now (option_map (λ r. r.now) row.entry)) }
{
    match (node, row) {
        (Node::C(_), _) => true,
        (Node::U(name, _), Some(row)) => row.act != Act::Delete && is_asked(stack, name),
        (Node::U(_, _), None) => false,
    }
}

// Whether a stack's plan has an item of this name.
fn is_asked(stack: &Stack, name: &ResName) -> bool
    ensures { IsTrue result ↔ IsSome (item_at (plan_of stack.now.plan).items name.now) }
{
    match &stack.plan {
        Some(plan) => item_of(plan.plan(), name).is_some(),
        None => false,
    }
}
