//! Graphs of traversals.
ghost use Rattle.std.specs.Prelude.{◌≡◌};
ghost use Rattle.plan_codec.specs.Sheets.{behind};
ghost use Rattle.row_codec.specs.Records.{spelled_graph, IsProperGraph};
ghost use Rattle.row_codec.specs.RecordLaws.{graph_parts};

use crate::node_lists::put_nodes;
use crate::of::Of;
use plan_codec::{Readable, Seq, Sheet, Unread, Writable};
use std::alloc::Global;
use traversal_graph::{Node, TravGraph};

// The parts in their order.
type Parts = (Of<Seq<Node>>, Seq<(u32, u32)>);

impl Readable for Of<TravGraph> {
    ghost use Rattle.row_codec.specs.Records.{spelled_graph, IsProperGraph};
    ghost use Rattle.row_codec.specs.RecordLaws.{graph_unique};

    ghost spelled = { spelled_graph };

    ghost proper = { IsProperGraph };

    fn read<'a>(alloc: Global, bytes: &'a [u8]) -> Result<(Of<TravGraph>, &'a [u8]), Unread> {
        let (parts, rest) = Parts::read(alloc, bytes)?;
        Ok((
            Of {
                thing: graph_of(parts),
            },
            rest,
        ))
    }

    ghost unique = { graph_unique };
}

// The graph of its parts.
#[tactic(auto, unfolding(crate::specs::RecordLaws::graph_parts))]
fn graph_of(parts: Parts) -> TravGraph
    ensures { result ≡ graph_parts.to parts }
{
    let (nodes, edges) = parts;
    TravGraph {
        nodes: nodes.thing,
        edges,
    }
}

/// Puts a graph.
#[tactic(auto, using(crate::proofs::Puts::puts), unfolding(crate::specs::Records::spelled_graph))]
pub(crate) fn put_graph(graph: &TravGraph, sheet: &mut Sheet)
    ensures bytes { sheet.new ≡ behind sheet.old (spelled_graph graph.now) }
    ensures proper { IsProperGraph graph.now }
{
    put_nodes(graph.nodes.as_slice(), sheet);
    graph.edges.put(sheet);
}
