//! Nodes of graphs.
ghost use Rattle.std.specs.Prelude.{◌≡◌, ◌∷◌, IfOk, IfErr};
ghost use Rattle.plan_codec.specs.Sheets.{behind};
ghost use Rattle.plan_codec.specs.Spellings.{Takes, Refuses};
ghost use Rattle.row_codec.specs.Words.{spelled_node, IsProperNode};

use crate::of::Of;
use plan_codec::{Readable, ResName, RowNo, Sheet, Unread, Writable};
use std::alloc::Global;
use traversal_graph::Node;

impl Readable for Of<Node> {
    ghost use Rattle.row_codec.specs.Words.{spelled_node, IsProperNode};
    ghost use Rattle.row_codec.specs.WordLaws.{node_unique};

    ghost spelled = { spelled_node };

    ghost proper = { IsProperNode };

    fn read<'a>(alloc: Global, bytes: &'a [u8]) -> Result<(Of<Node>, &'a [u8]), Unread> {
        match bytes {
            [0, rest @ ..] => update_at(alloc, rest),
            [1, rest @ ..] => clean_up_at(alloc, rest),
            _ => Err(Unread::Unspelled),
        }
    }

    ghost unique = { node_unique };
}

// The update node behind its tag.
fn update_at(alloc: Global, rest: &[u8]) -> Result<(Of<Node>, &[u8]), Unread>
    ensures ok { IfOk result (λ x. Takes spelled_node IsProperNode (0 ∷ rest.now) x.0 x.1.now) }
    ensures err { IfErr result (Refuses spelled_node IsProperNode (0 ∷ rest.now)) }
{
    let (parts, rest) = <(ResName, RowNo)>::read(alloc, rest)?;
    let (name, row) = parts;
    Ok((
        Of {
            thing: Node::U(name, row),
        },
        rest,
    ))
}

// The clean-up node behind its tag.
fn clean_up_at(alloc: Global, rest: &[u8]) -> Result<(Of<Node>, &[u8]), Unread>
    ensures ok { IfOk result (λ x. Takes spelled_node IsProperNode (1 ∷ rest.now) x.0 x.1.now) }
    ensures err { IfErr result (Refuses spelled_node IsProperNode (1 ∷ rest.now)) }
{
    match <RowNo as Readable>::read(alloc, rest) {
        Ok((row, rest)) => Ok((
            Of {
                thing: Node::C(row),
            },
            rest,
        )),
        Err(why) => Err(why),
    }
}

/// Puts a node.
#[tactic(auto, using(crate::proofs::Puts::puts))]
pub(crate) fn put_node(node: &Node, sheet: &mut Sheet)
    ensures bytes { sheet.new ≡ behind sheet.old (spelled_node node.now) }
    ensures proper { IsProperNode node.now }
{
    match node {
        Node::U(name, row) => {
            sheet.put(0);
            name.put(sheet);
            row.put(sheet);
        }
        Node::C(row) => {
            sheet.put(1);
            row.put(sheet);
        }
    }
}
