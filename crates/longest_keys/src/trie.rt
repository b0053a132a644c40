//! Texts read from behind, as a trie: a node's text is its byte before its parent's text.
ghost use Rattle.std.specs.Prelude.{◌≡◌, ◌≢◌, ◌<◌, Some, IfOk, MatchOption, length, slice_get};
ghost use Rattle.longest_keys.specs.declared.trie.Node.{Node};
ghost use Rattle.longest_keys.specs.Tries.{IsTrie, IsEdge, LacksEdge, IsGrown};

use std::alloc::AllocError;

/// A node of a trie. The root stands at place 0; its byte and its parent mean nothing.
#[derive(Clone, Copy, Drop)]
pub struct Node {
    /// The first byte of the node's text.
    pub byte: u8,
    /// The place of the node of the other bytes.
    pub parent: usize,
    /// The place of the last of the node's children, or 0 where it has none.
    pub child: usize,
    /// The place of the child before it of the same parent, or 0 where it is the first.
    pub sibling: usize,
}

/// The place of the parent of a node but the root.
pub fn parent_of(nodes: &[Node], at: usize) -> usize
    requires trie { IsTrie nodes.now }
    requires within { at < length nodes.now }
    requires some { at ≢ 0 }
    ensures parent { (n : Node) → slice_get nodes.now at ≡ Some n → result ≡ n.parent }
    ensures earlier { result < at }
{
    nodes[at].parent
}

/// The place of the node of a byte before a node's text, where there is one.
pub fn child_of(nodes: &[Node], at: usize, byte: u8) -> Option<usize>
    requires trie { IsTrie nodes.now }
    requires within { at < length nodes.now }
    ensures { MatchOption result (LacksEdge nodes.now at byte) (IsEdge nodes.now at byte) }
{
    let mut child = nodes[at].child;
    while child != 0 {
        if nodes[child].byte == byte {
            return Some(child);
        }
        child = nodes[child].sibling;
    }
    None
}

/// The same, where a node is added if there is none.
pub fn child_or_new(nodes: &mut Vec<Node>, at: usize, byte: u8) -> Result<usize, AllocError>
    requires trie { IsTrie nodes.old.items }
    requires within { at < length nodes.old.items }
    ensures { IfOk result (IsGrown nodes.old.items nodes.new.items at byte) }
{
    match child_of(nodes.as_slice(), at, byte) {
        Some(child) => Ok(child),
        None => add_child(nodes, at, byte),
    }
}

// Adds the node of a byte before a node's text.
fn add_child(nodes: &mut Vec<Node>, at: usize, byte: u8) -> Result<usize, AllocError>
    requires trie { IsTrie nodes.old.items }
    requires within { at < length nodes.old.items }
    requires none { LacksEdge nodes.old.items at byte }
    ensures { IfOk result (IsGrown nodes.old.items nodes.new.items at byte) }
{
    let child = nodes.len();
    let sibling = nodes[at].child;
    nodes.push(Node {
        byte,
        parent: at,
        child: 0,
        sibling,
    })?;
    nodes[at].child = child;
    Ok(child)
}
