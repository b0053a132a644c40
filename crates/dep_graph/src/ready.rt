//! Nodes that are ready, of which the least comes out first.

ghost use Rattle.std.specs.Prelude.{◌≡◌, [], ◌∷◌, OnOk, MatchOption};
ghost use Rattle.dep_graph.specs.Lists.{IsRising, PutsIn};

use std::alloc::{AllocError, Global};
use std::collections::BTreeSet;
use std::marker::Model;

/// Nodes, each once, seen as a rising list.
#[derive(Drop)]
pub(crate) struct Ready {
    nodes: BTreeSet<u32>,
}

impl Model for Ready {
    ghost use Rattle.std.specs.Prelude.{List, ℕ};
    ghost use Rattle.dep_graph.specs.Lists.{IsRising};

    ghost Value = { List ℕ };

    ghost view = { λ ready. ready.nodes.keys };

    ghost invariant = { λ ready. IsRising ready.nodes.keys };
}

impl Ready {
    /// No node.
    pub(crate) fn new(alloc: Global) -> Ready
        ensures { result ≡ [] }
    {
        Ready {
            nodes: BTreeSet::new(alloc),
        }
    }

    /// Puts a node in, unless it is there.
    pub(crate) fn insert(&mut self, node: u32) -> Result<(), AllocError>
        ensures { OnOk result (PutsIn self.old node self.new) }
    {
        self.nodes.insert(node)?;
        Ok(())
    }

    /// Takes the least node out.
    pub(crate) fn take_least(&mut self) -> Option<u32>
        ensures least { MatchOption result (self.old ≡ []) (λ node. self.old ≡ node ∷ self.new) }
        ensures rising { IsRising self.old }
    {
        self.nodes.pop_first()
    }
}
