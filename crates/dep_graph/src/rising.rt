//! Rising lists of nodes.

ghost use Rattle.std.specs.Prelude.{◌≡◌, IfOk, OnErr, OnOk};
ghost use Rattle.dep_graph.specs.Lists.{IsRising, PutsIn};

use heat_value::Seq;
use std::alloc::AllocError;

/// Puts a node in at its place, unless it is there.
pub fn put_in(nodes: &mut Seq<u32>, node: u32) -> Result<(), AllocError>
    requires { IsRising nodes.old }
    ensures ok { OnOk result (PutsIn nodes.old node nodes.new) }
    ensures err { OnErr result (nodes.new ≡ nodes.old) }
{
    if let Err(place) = nodes.as_slice().binary_search(&node) {
        nodes.insert(place, node)?;
    }
    Ok(())
}

/// A copy of a rising list with one node put in.
pub fn with_node(list: &Seq<u32>, node: u32) -> Result<Seq<u32>, AllocError>
    requires { IsRising list.now }
    ensures { IfOk result (PutsIn list.now node) }
{
    let mut nodes = Seq::from_vec(Vec::from_slice(list.allocator(), list.as_slice())?);
    put_in(&mut nodes, node)?;
    Ok(nodes)
}
