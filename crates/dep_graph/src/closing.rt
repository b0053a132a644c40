//! Edges that are added unless they would close a cycle.

ghost use Rattle.std.specs.Prelude.{◌≡◌, ◌≢◌, ◌<◌, IfOk, OnErr, MatchOption, length};
ghost use Rattle.std.specs.Bool.{OnFalse};
ghost use Rattle.dep_graph.specs.Paths.{IsPath, HasPath, IsAcyclic};
ghost use Rattle.dep_graph.specs.Edges.{HasEdge};
ghost use Rattle.dep_graph.specs.Marks.{IsMarked, MarksAll};
ghost use Rattle.dep_graph.specs.Closings.{GoesTowards};
ghost use Rattle.dep_graph.specs.Answers.{IsAddedAnswer};

use crate::Graph;
use crate::marks::first_marked;
use heat_value::Seq;
use std::alloc::AllocError;

/// What came of an edge.
#[derive(Debug, Drop)]
pub enum Added {
    /// The edge is in the graph.
    Added,
    /// The edge is refused: this path leads from its after to its before.
    WouldClose(Seq<u32>),
}

impl Graph {
    /// Adds an edge, unless it would close a cycle.
    pub fn add_unless_cycle(&mut self, before: u32, after: u32) -> Result<Added, AllocError>
        requires before { before < length self.old }
        requires after { after < length self.old }
        requires acyclic { IsAcyclic (HasEdge self.old) }
        ensures ok { IfOk result (IsAddedAnswer before after self.old self.new) }
        ensures acyclic { IsAcyclic (HasEdge self.new) }
        ensures err { OnErr result (self.new ≡ self.old) }
    {
        if let Some(path) = closing_path(self, before, after)? {
            return Ok(Added::WouldClose(path));
        }
        self.add_edge(before, after)?;
        Ok(Added::Added)
    }
}

// The path that an edge would close, if there is one.
fn closing_path(graph: &Graph, before: u32, after: u32) -> Result<Option<Seq<u32>>, AllocError>
    requires before { before < length graph.now }
    requires after { after < length graph.now }
    requires acyclic { IsAcyclic (HasEdge graph.now) }
    ensures { IfOk result (λ found. MatchOption found
        (¬ HasPath (HasEdge graph.now) after before)
        (IsPath (GoesTowards (HasEdge graph.now) before) after before)) }
{
    if !may_close(graph, before, after) {
        return Ok(None);
    }
    if !graph.reached(after)?.has(before) {
        return Ok(None);
    }
    let reaching = graph.reaching(before)?;
    Ok(Some(least_path(graph, reaching.as_slice(), after, before)?))
}

// Whether a search is needed: not where no edge leads on from `after` or to `before`.
fn may_close(graph: &Graph, before: u32, after: u32) -> bool
    requires before { before < length graph.now }
    requires after { after < length graph.now }
    ensures { OnFalse result (¬ HasPath (HasEdge graph.now) after before) }
{
    if after == before {
        return true;
    }
    !graph.succs(after).is_empty() && !graph.preds(before).is_empty()
}

// The path to the goal each of whose steps is the least that leads there.
fn least_path(
    graph: &Graph,
    reaching: &[bool],
    from: u32,
    goal: u32,
) -> Result<Seq<u32>, AllocError>
    requires acyclic { IsAcyclic (HasEdge graph.now) }
    requires size { length reaching.now ≡ length graph.now }
    requires exact { MarksAll (λ node. HasPath (HasEdge graph.now) node goal) reaching.now }
    requires from { IsMarked reaching.now from }
    ensures { IfOk result (IsPath (GoesTowards (HasEdge graph.now) goal) from goal) }
{
    let mut path = Seq::new(graph.allocator());
    let mut at = from;
    path.push(at)?;
    while at != goal {
        at = step_towards(graph, reaching, at, goal);
        path.push(at)?;
    }
    Ok(path)
}

// The least successor from which the goal is reached, of a node that reaches it.
fn step_towards(graph: &Graph, reaching: &[bool], node: u32, goal: u32) -> u32
    requires size { length reaching.now ≡ length graph.now }
    requires exact { MarksAll (λ other. HasPath (HasEdge graph.now) other goal) reaching.now }
    requires node { IsMarked reaching.now node }
    requires on { node ≢ goal }
    ensures step { GoesTowards (HasEdge graph.now) goal node result }
    ensures marked { IsMarked reaching.now result }
{
    match first_marked(graph.succs(node), reaching) {
        Some(succ) => succ,
        None => unreachable!(),
    }
}
