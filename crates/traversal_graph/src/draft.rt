//! A graph while it is drawn: its edges so far, in the order in which they were kept.

ghost use Rattle.std.specs.Prelude.{◌≡◌, ◌<◌, ◌↔◌, ℕ, [], ◌∷◌, length, IfOk, OnOk};
ghost use Rattle.dep_graph.specs.Edges.{HasEdge};
ghost use Rattle.dep_graph.specs.Marks.{IsMarked, MarksAll};
ghost use Rattle.dep_graph.specs.Paths.{HasPath};

use dep_graph::{Graph, Marks};
use heat_value::Seq;
use std::alloc::{AllocError, Global};

/// The edges kept so far, also as a graph that finds what would close a cycle.
#[derive(Drop)]
pub(crate) struct Draft {
    pub(crate) graph: Graph,
    pub(crate) edges: Seq<(u32, u32)>,
}

impl Draft {
    ghost use Rattle.traversal_graph.specs.Drafts.{IsDraft, IsBareDraft, Draws};

    /// So many nodes and no edge.
    pub(crate) fn new(alloc: Global, size: u32) -> Result<Draft, AllocError>
        ensures { IfOk result (IsBareDraft size) }
    {
        Ok(Draft {
            graph: Graph::new(alloc, size)?,
            edges: Seq::new(alloc),
        })
    }

    /// Keeps an edge into a node whose reach is known, unless it would close a cycle.
    pub(crate) fn draw_into(
        &mut self,
        reached: &Marks,
        before: u32,
        after: u32,
    ) -> Result<(), AllocError>
        requires draft { IsDraft self.old }
        requires before { before < length self.old.graph }
        requires after { after < length self.old.graph }
        requires size { length reached.now ≡ length self.old.graph }
        requires reached { MarksAll (HasPath (HasEdge self.old.graph) after) reached.now }
        ensures draws { OnOk result (Draws ((before, after) ∷ []) self.old self.new) }
        ensures reached { OnOk result
            (MarksAll (HasPath (HasEdge self.new.graph) after) reached.now) }
    {
        if reached.has(before) {
            return Ok(());
        }
        self.graph.add_edge(before, after)?;
        self.edges.push((before, after))?;
        Ok(())
    }

    /// Keeps an edge, unless it would close a cycle: its after has a mark where it reaches its before.
    pub(crate) fn draw_from(
        &mut self,
        reaching: &Marks,
        before: u32,
        after: u32,
    ) -> Result<(), AllocError>
        requires draft { IsDraft self.old }
        requires before { before < length self.old.graph }
        requires after { after < length self.old.graph }
        requires reaching { IsMarked reaching.now after
            ↔ HasPath (HasEdge self.old.graph) after before }
        ensures draws { OnOk result (Draws ((before, after) ∷ []) self.old self.new) }
        ensures same { OnOk result ((node : ℕ) → HasPath (HasEdge self.old.graph) node before
            ↔ HasPath (HasEdge self.new.graph) node before) }
    {
        if reaching.has(after) {
            return Ok(());
        }
        self.graph.add_edge(before, after)?;
        self.edges.push((before, after))?;
        Ok(())
    }
}
