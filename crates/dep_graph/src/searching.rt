//! Which nodes a path joins to one, or to one of several: a search that marks what it meets, against
//! the edges or along them.

ghost use Rattle.std.specs.Prelude.{◌≡◌, ◌<◌, All, IfOk, OnOk, length};
ghost use Rattle.dep_graph.specs.Paths.{HasPath, HasPathFrom};
ghost use Rattle.dep_graph.specs.Edges.{HasEdge};
ghost use Rattle.dep_graph.specs.Marks.{MarksAll, MarksAmong, MarksNew};

use crate::Graph;
use crate::marks::Marks;
use std::alloc::AllocError;

impl Graph {
    /// Marks exactly the nodes from which a path leads to this one, itself among them.
    pub fn reaching(&self, goal: u32) -> Result<Marks, AllocError>
        requires { goal < length self.now }
        ensures size { IfOk result (λ marks. length marks ≡ length self.now) }
        ensures exact { IfOk result (MarksAll (λ node. HasPath (HasEdge self.now) node goal)) }
    {
        let mut marks = Marks::new(self.allocator(), self.size(), false)?;
        let mut pending = Vec::new(self.allocator());
        mark_new(&[goal], &mut marks, &mut pending)?;
        while let Some(node) = pending.pop() {
            mark_new(self.preds(node), &mut marks, &mut pending)?;
        }
        Ok(marks)
    }

    /// Marks of these nodes exactly those from which a path leads to the goal. Of the other nodes it
    /// says nothing.
    pub fn reaching_among(&self, nodes: &[u32], goal: u32) -> Result<Marks, AllocError>
        requires nodes { All (λ node. node < length self.now) nodes.now }
        requires goal { goal < length self.now }
        ensures { IfOk result
            (MarksAmong nodes.now (λ node. HasPath (HasEdge self.now) node goal)) }
    {
        if self.preds(goal).is_empty() {
            return self.reaching(goal);
        }

        // Most often none of them reaches the goal: one search from all of them tells that.
        let reached = self.reached_from(nodes)?;
        if !reached.has(goal) {
            return Marks::new(self.allocator(), 0, false);
        }
        self.reaching(goal)
    }

    /// Marks exactly the nodes to which a path leads from this one, itself among them.
    pub fn reached(&self, from: u32) -> Result<Marks, AllocError>
        requires { from < length self.now }
        ensures size { IfOk result (λ marks. length marks ≡ length self.now) }
        ensures exact { IfOk result (MarksAll (λ node. HasPath (HasEdge self.now) from node)) }
    {
        self.reached_from(&[from])
    }

    // Marks exactly the nodes to which a path leads from one of these, themselves among them.
    fn reached_from(&self, nodes: &[u32]) -> Result<Marks, AllocError>
        requires { All (λ node. node < length self.now) nodes.now }
        ensures size { IfOk result (λ marks. length marks ≡ length self.now) }
        ensures exact { IfOk result (MarksAll (HasPathFrom (HasEdge self.now) nodes.now)) }
    {
        let mut marks = Marks::new(self.allocator(), self.size(), false)?;
        let mut pending = Vec::new(self.allocator());
        mark_new(nodes, &mut marks, &mut pending)?;
        while let Some(node) = pending.pop() {
            mark_new(self.succs(node), &mut marks, &mut pending)?;
        }
        Ok(marks)
    }
}

// Marks those of the nodes that have no mark yet, and lets them wait for their turn.
fn mark_new(nodes: &[u32], marks: &mut Marks, pending: &mut Vec<u32>) -> Result<(), AllocError>
    requires { All (λ node. node < length marks.old) nodes.now }
    ensures { OnOk result (MarksNew nodes.now marks.old pending.old.items marks.new pending.new.items) }
{
    for node in nodes {
        if !marks.as_slice()[*node as usize] {
            pending.push(*node)?;
            marks.put(*node, true);
        }
    }
    Ok(())
}
