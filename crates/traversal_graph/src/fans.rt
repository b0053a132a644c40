//! Candidates for edges, node by node: those into a node, or those out of it.

ghost use Rattle.std.specs.Prelude.{◌≡◌, ◌++◌, ◌∷◌, [], IfOk, OnOk};
ghost use Rattle.traversal_graph.specs.Candidates.{edges_in, edges_out};
ghost use Rattle.traversal_graph.specs.Fans.{all_edges, fan_edges};

use heat_value::Seq;
use std::alloc::{AllocError, Global};

/// Edges from these nodes to one, or from one to these.
#[derive(Debug, Drop)]
pub(crate) enum Fan {
    In(Seq<u32>, u32),
    Out(u32, Seq<u32>),
}

/// The edges of fans, one after another.
pub(crate) fn all_edges(alloc: Global, fans: &[Fan]) -> Result<Seq<(u32, u32)>, AllocError>
    ensures { IfOk result (λ edges. edges ≡ all_edges fans.now) }
{
    let mut edges = Seq::new(alloc);
    for fan in fans {
        add_edges(&mut edges, fan)?;
    }
    Ok(edges)
}

// Adds the edges of one fan.
fn add_edges(edges: &mut Seq<(u32, u32)>, fan: &Fan) -> Result<(), AllocError>
    ensures { OnOk result (edges.new ≡ edges.old ++ fan_edges fan.now) }
{
    match fan {
        Fan::In(befores, after) => add_in(edges, befores.as_slice(), *after),
        Fan::Out(before, afters) => add_out(edges, *before, afters.as_slice()),
    }
}

// Adds an edge from each of the nodes to a node.
fn add_in(edges: &mut Seq<(u32, u32)>, befores: &[u32], after: u32) -> Result<(), AllocError>
    ensures { OnOk result (edges.new ≡ edges.old ++ edges_in befores.now after) }
{
    for before in befores {
        edges.push((*before, after))?;
    }
    Ok(())
}

// Adds an edge from a node to each of the nodes.
fn add_out(edges: &mut Seq<(u32, u32)>, before: u32, afters: &[u32]) -> Result<(), AllocError>
    ensures { OnOk result (edges.new ≡ edges.old ++ edges_out before afters.now) }
{
    for after in afters {
        edges.push((before, *after))?;
    }
    Ok(())
}
