//! The trie of the texts that keys end with, grown by one byte of each key at a time, so that shorter texts come first.
ghost use Rattle.std.specs.Prelude.{◌≡◌, ◌+◌, ◌≤◌, ◌∷◌, [], ℕ, List, IfOk, OnOk, All, map, length};
ghost use Rattle.longest_keys.specs.Growing.{IsRead, AreFirst, root};
ghost use Rattle.longest_keys.specs.Finders.{IsKeyTrie};
ghost use Rattle.longest_keys.specs.declared.growing.Cursor.{Cursor};

use crate::trie::{Node, child_or_new};
use std::alloc::{AllocError, Global};

/// A trie, and for each key the place of its node.
#[derive(Drop)]
pub struct KeyTrie {
    pub nodes: Vec<Node>,
    pub ends: Vec<usize>,
}

/// A key that isn't read to its front, and the place of the node of what is read.
#[derive(Clone, Copy, Drop)]
pub struct Cursor {
    pub key: usize,
    pub node: usize,
}

/// The trie of the texts that the keys end with.
pub fn trie_of(alloc: Global, keys: &[&[u8]]) -> Result<KeyTrie, AllocError>
    ensures { IfOk result (IsKeyTrie (map (λ k. k.now) keys.now)) }
{
    let mut nodes = root_alone(alloc)?;
    let mut ends = zeros(alloc, keys.len())?;
    let mut cursors = first_cursors(alloc, keys)?;
    for depth in 0..longest_len(keys) {
        cursors = level(
            alloc,
            keys,
            &mut nodes,
            &mut ends,
            cursors.as_slice(),
            depth,
        )?;
    }
    Ok(KeyTrie { nodes, ends })
}

// The root alone.
fn root_alone(alloc: Global) -> Result<Vec<Node>, AllocError>
    ensures { IfOk result (λ v. v.items ≡ root ∷ []) }
{
    let mut nodes = Vec::new(alloc);
    nodes.push(Node {
        byte: 0,
        parent: 0,
        child: 0,
        sibling: 0,
    })?;
    Ok(nodes)
}

// So many zeros.
fn zeros(alloc: Global, count: usize) -> Result<Vec<usize>, AllocError>
    ensures size { IfOk result (λ v. length v.items ≡ count) }
    ensures zeros { IfOk result (λ v. All (λ e. e ≡ 0) v.items) }
{
    vec![in alloc; 0; count]
}

// A cursor behind each key that isn't empty.
fn first_cursors(alloc: Global, keys: &[&[u8]]) -> Result<Vec<Cursor>, AllocError>
    ensures { IfOk result (λ v. AreFirst (map (λ k. k.now) keys.now) v.items) }
{
    let mut cursors = Vec::new(alloc);
    for key in 0..keys.len() {
        if keys[key].is_empty() {
            continue;
        }
        cursors.push(Cursor { key, node: 0 })?;
    }
    Ok(cursors)
}

// Reads one byte more of each key that has one; cursors to those that have more are given.
fn level(
    alloc: Global,
    keys: &[&[u8]],
    nodes: &mut Vec<Node>,
    ends: &mut Vec<usize>,
    cursors: &[Cursor],
    depth: usize,
) -> Result<Vec<Cursor>, AllocError>
    requires read { IsRead (map (λ k. k.now) keys.now) depth cursors.now [] nodes.old.items ends.old.items }
    ensures { IfOk result (λ v. IsRead (map (λ k. k.now) keys.now) depth [] v.items nodes.new.items ends.new.items) }
{
    let mut next = Vec::with_capacity(alloc, cursors.len())?;
    for i in 0..cursors.len() {
        read_one(keys, nodes, ends, &cursors[i], depth, &mut next)?;
    }
    Ok(next)
}

// Reads one byte more of a key, which ends there if it has no other.
fn read_one(
    keys: &[&[u8]],
    nodes: &mut Vec<Node>,
    ends: &mut Vec<usize>,
    cursor: &Cursor,
    depth: usize,
    next: &mut Vec<Cursor>,
) -> Result<(), AllocError>
    requires read { (rest : List Cursor)
        × IsRead (map (λ k. k.now) keys.now) depth (cursor.now ∷ rest) next.old.items
        nodes.old.items ends.old.items }
    ensures { (rest : List Cursor)
        → IsRead (map (λ k. k.now) keys.now) depth (cursor.now ∷ rest) next.old.items
        nodes.old.items ends.old.items
        → OnOk result (IsRead (map (λ k. k.now) keys.now) depth rest next.new.items
        nodes.new.items ends.new.items) }
{
    let left = keys[cursor.key].len() - depth - 1;
    let node = child_or_new(nodes, cursor.node, keys[cursor.key][left])?;
    if left == 0 {
        ends[cursor.key] = node;
    } else {
        next.push(Cursor {
            key: cursor.key,
            node,
        })?;
    }
    Ok(())
}

// How long the longest key is.
fn longest_len(keys: &[&[u8]]) -> usize
    ensures { All (λ k. length k.now ≤ result) keys.now }
{
    let mut longest = 0;
    for key in keys {
        longest = longest.max(key.len());
    }
    longest
}
