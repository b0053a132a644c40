//! Lists of nodes.
ghost use Rattle.std.specs.Prelude.{◌≡◌, IfOk, IfErr};
ghost use Rattle.plan_codec.specs.Parts.{spelled_list, AreAll};
ghost use Rattle.plan_codec.specs.Sheets.{behind};
ghost use Rattle.plan_codec.specs.Spellings.{Takes, Refuses};
ghost use Rattle.row_codec.specs.Words.{spelled_node, IsProperNode};

use crate::nodes::put_node;
use crate::of::Of;
use plan_codec::{Readable, Seq, Sheet, Unread, put_number};
use std::alloc::Global;
use traversal_graph::Node;

impl Readable for Of<Seq<Node>> {
    ghost use Rattle.plan_codec.specs.Parts.{spelled_list, AreAll};
    ghost use Rattle.plan_codec.specs.Laws.{list_unique};
    ghost use Rattle.row_codec.specs.Words.{spelled_node, IsProperNode};
    ghost use Rattle.row_codec.specs.WordLaws.{node_unique};

    ghost spelled = { spelled_list spelled_node };

    ghost proper = { AreAll IsProperNode };

    fn read<'a>(alloc: Global, bytes: &'a [u8]) -> Result<(Of<Seq<Node>>, &'a [u8]), Unread> {
        let (items, rest) = nodes_at(alloc, bytes)?;
        Ok((
            Of {
                thing: Seq::from_vec(items),
            },
            rest,
        ))
    }

    ghost unique = { list_unique node_unique };
}

// The nodes at the front: how many, and each. Nothing is taken for what their number claims: the list grows as
// nodes are read.
fn nodes_at(alloc: Global, bytes: &[u8]) -> Result<(Vec<Node>, &[u8]), Unread>
    ensures ok { IfOk result (λ x. Takes (spelled_list spelled_node) (AreAll IsProperNode) bytes.now x.0.items x.1.now) }
    ensures err { IfErr result (Refuses (spelled_list spelled_node) (AreAll IsProperNode) bytes.now) }
{
    let (count, mut rest) = u64::read(alloc, bytes)?;
    let mut all = Vec::new(alloc);
    for _ in 0..count {
        let (node, behind) = Of::<Node>::read(alloc, rest)?;
        all.push(node.thing)?;
        rest = behind;
    }
    Ok((all, rest))
}

/// Puts how many nodes there are, and each of them.
pub(crate) fn put_nodes(nodes: &[Node], sheet: &mut Sheet)
    ensures bytes { sheet.new ≡ behind sheet.old (spelled_list spelled_node nodes.now) }
    ensures proper { AreAll IsProperNode nodes.now }
{
    put_number(nodes.len() as u64, sheet);
    for node in nodes {
        put_node(node, sheet);
    }
}
