//! The parts of the state that a begin at an update node reads.
ghost use Rattle.std.specs.Prelude.{ℕ, ◌≡◌, IsNone, IfSome, IsSome, Some, slice_get};
ghost use Rattle.traversal_graph.specs.declared.shape.Node.TheVariants.{U};
ghost use Rattle.mail_table.specs.declared.mail.Stage.TheVariants.{Taken};
ghost use Rattle.step_relation.specs.Nexts.{Works};
ghost use Rattle.check_steps.specs.AtUpdate.{AtUpdate, HasPoint};
ghost use Rattle.check_steps.specs.Parts.{HasParts, IsParts};

use core_state::{Graph, Job, Point, Row, SharedPlan, Stack, Stage, State};
use heat_plan::{EngineNo, Item, ResName};
use step_reads::{freshness, item_of};
use traversal_graph::Node;

/// A stack with its plan, the item that a job's node is about, the node's point, and the job's row.
#[derive(Clone, Copy)]
pub(crate) struct Parts<'a> {
    pub stack: &'a Stack,
    pub plan: &'a SharedPlan,
    pub item: &'a Item,
    pub point: &'a Point,
    pub row: &'a Row,
}

/// What the next step of an engine's job reads, where that is the begin at an update node.
pub(crate) fn begun_parts<'a>(s: &'a State, e: EngineNo, job: &'a Job) -> Option<Parts<'a>>
    requires works { Works s.now.state e job.now job.now.stage }
    requires points { HasPoint s.now.state e }
    ensures some { IfSome result (HasParts s.now.state e job.now) }
    ensures none { IsNone result → ¬ AtUpdate s.now.state e job.now }
{
    match job.stage {
        Stage::Taken => update_parts(s, e, job),
        Stage::Asking => None,
        Stage::Polling => None,
        Stage::Ending => None,
    }
}

// The same of a job at Taken; none where it is overrun, or at a clean-up node.
fn update_parts<'a>(s: &'a State, e: EngineNo, job: &'a Job) -> Option<Parts<'a>>
    requires works { Works s.now.state e job.now Taken }
    requires points { HasPoint s.now.state e }
    ensures some { IfSome result (HasParts s.now.state e job.now) }
    ensures none { IsNone result → ¬ AtUpdate s.now.state e job.now }
{
    match freshness(s, job) {
        None => None,
        Some(fresh) => match fresh.node {
            Node::C(_) => None,
            Node::U(_, _) => Some(parts_of(s, job)),
        },
    }
}

/// What the begin of a job at an update node reads.
pub(crate) fn parts_of<'a>(s: &'a State, job: &'a Job) -> Parts<'a>
    requires { (e : ℕ) × AtUpdate s.now.state e job.now }
    ensures { (e : ℕ) → AtUpdate s.now.state e job.now → IsParts s.now.state e job.now result }
{
    let node = job.letter.node as usize;
    let stack = s.stack(&job.letter.stack).unwrap();
    let graph = s.graph(&job.letter.stack).unwrap();
    let point = graph.points.get(node).unwrap();
    let plan = plan_in(stack);
    let item = item_of(plan.plan(), name_at(graph, node)).unwrap();
    let row = s.row(&job.row).unwrap();
    Parts {
        stack,
        plan,
        item,
        point,
        row,
    }
}

// The name of the item that an update node is about.
fn name_at<'a>(graph: &'a Graph, node: usize) -> &'a ResName
    requires { (name : _) × (chosen : ℕ)
        × (slice_get graph.now.graph.nodes node ≡ Some (U name chosen)) }
    ensures { (name : _) (chosen : ℕ)
        → slice_get graph.now.graph.nodes node ≡ Some (U name chosen) → result.now ≡ name }
{
    match &graph.graph.nodes.as_slice()[node] {
        Node::U(name, _) => name,
        Node::C(_) => unreachable!(),
    }
}

// The plan of a stack that has one.
fn plan_in<'a>(stack: &'a Stack) -> &'a SharedPlan
    requires { IsSome stack.now.plan }
    ensures { stack.now.plan ≡ Some result.now }
{
    match &stack.plan {
        Some(plan) => plan,
        None => unreachable!(),
    }
}
