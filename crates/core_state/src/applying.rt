//! Whether a change applies to a state, and the making of one that does.
ghost use Rattle.std.specs.Prelude.{◌≡◌, ◌≤◌, ◌+◌, ◌↔◌, IsTrue, IsSome, OnOk, OnErr, Err, Contains};
ghost use Rattle.heat_plan.specs.declared.token.Token.{Token as token_type};
ghost use Rattle.core_state.specs.declared.apply_fault.ApplyFault.TheVariants.{Bad};
ghost use Rattle.core_state.specs.State.{stack_at};
ghost use Rattle.core_state.specs.Changes.{apply};
ghost use Rattle.core_state.specs.Applies.{Applies, IsWithin, HasNode, NoneFalls};

use crate::apply_fault::ApplyFault;
use crate::change::Change;
use crate::numbers::Numbers;
use crate::ready::Ready;
use crate::state::State;
use heat_plan::{EngineNo, StackName, Token};
use std::alloc::Global;
use sync_points::Point;
use traversal_graph::TravGraph;

impl State {
    /// Makes one change. `Bad` comes exactly where it doesn't apply; all is then as it was, and so it is
    /// for want of memory.
    pub fn apply(&mut self, alloc: Global, change: Change) -> Result<(), ApplyFault>
        ensures ok { OnOk result (self.new.state ≡ apply change self.old.state) }
        ensures bad { (result ≡ Err Bad) ↔ ¬ Applies self.old.state change }
        ensures same { OnErr result (self.new.state ≡ self.old.state) }
        ensures room { self.old.spare ≤ self.new.spare + 1 }
    {
        if !applies(self, &change) {
            return Err(ApplyFault::Bad);
        }
        let ready = Ready::new(alloc, change)?;
        self.reserve(1)?;
        self.make(ready);
        Ok(())
    }
}

// Whether a change applies.
fn applies(s: &State, change: &Change) -> bool
    ensures { IsTrue result ↔ Applies s.now.state change.now }
{
    match change {
        Change::PutStack(_) | Change::PutRow(_) | Change::PutJob(_) => true,
        Change::DropStack(name) => s.stack(name).is_some(),
        Change::DropRow(no) => s.row(no).is_some(),
        Change::PutGraph(name, graph) => s.stack(name).is_some() && is_within(graph),
        Change::PutPoint(point) => has_node(s, point),
        Change::Send(letter) => s.letter(&letter.no).is_none(),
        Change::Drop(no) => s.letter(no).is_some(),
        Change::EndJob(engine) => s.job(engine).is_some(),
        Change::Enlist(engine) => !is_live(s.live(), *engine),
        Change::Stop(engine) => is_live(s.live(), *engine),
        Change::Numbers(numbers) => none_falls(s.next(), numbers),
        Change::PutPast(past) => s.stack(&past.stack).is_some(),
        Change::Release(token) => !is_among(s.released(), token),
    }
}

// Whether each edge is between places of the graph's nodes.
fn is_within(graph: &TravGraph) -> bool
    ensures { IsTrue result ↔ IsWithin graph.now }
{
    let count = graph.nodes.len();
    for (before, after) in graph.edges.as_slice() {
        if count <= *before as usize || count <= *after as usize {
            return false;
        }
    }
    true
}

// Whether the point's node is in its stack's graph.
fn has_node(s: &State, point: &Point) -> bool
    ensures { IsTrue result ↔ HasNode s.now.state point.now }
{
    match s.graph(&point.stack) {
        Some(graph) => (point.node as usize) < graph.graph.nodes.len(),
        None => false,
    }
}

// Whether the engine is one of these.
fn is_live(live: &[EngineNo], engine: EngineNo) -> bool
    ensures { IsTrue result ↔ Contains live.now engine }
{
    for other in live {
        if *other == engine {
            return true;
        }
    }
    false
}

// Whether no next number is lower than it was.
fn none_falls(old: &Numbers, new: &Numbers) -> bool
    ensures { IsTrue result ↔ NoneFalls old.now new.now }
{
    old.stack.get() <= new.stack.get()
        && old.trav.get() <= new.trav.get()
        && old.row.get() <= new.row.get()
        && old.engine.get() <= new.engine.get()
        && old.letter.get() <= new.letter.get()
}

// Whether the token is one of these.
fn is_among(released: &[Token], token: &Token) -> bool
    ensures { IsTrue result ↔ Contains released.now token.now }
{
    for other in released {
        if *other == *token {
            return true;
        }
    }
    false
}
