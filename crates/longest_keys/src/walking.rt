//! Reading a text from behind by a trie: at each place the longest of the trie's texts that stands there.
ghost use Rattle.std.specs.Prelude.{◌≡◌, ◌<◌, ◌≤◌, ◌∷◌, ℕ, List, Some, IfOk, length, slice_get};
ghost use Rattle.longest_keys.specs.Texts.{but_last};
ghost use Rattle.longest_keys.specs.Tries.{IsTrie, IsLeveled, Spells};
ghost use Rattle.longest_keys.specs.Walks.{IsDeepest, AreFails, AreStates};

use crate::trie::{Node, child_of, parent_of};
use std::alloc::{AllocError, Global};

/// For each node the place of the longest of the trie's texts that the node's text begins with and that is shorter.
pub fn fails_of(alloc: Global, nodes: &[Node]) -> Result<Vec<usize>, AllocError>
    requires trie { IsTrie nodes.now }
    requires leveled { IsLeveled nodes.now }
    ensures fails { IfOk result (λ v. AreFails nodes.now v.items) }
    ensures size { IfOk result (λ v. length v.items ≡ length nodes.now) }
{
    let mut fails = Vec::with_capacity(alloc, nodes.len())?;
    fails.push(0)?;
    for i in 1..nodes.len() {
        let fail = fail_of(nodes, fails.as_slice(), i);
        fails.push(fail)?;
    }
    Ok(fails)
}

// The same for one node behind those that are told.
fn fail_of(nodes: &[Node], fails: &[usize], at: usize) -> usize
    requires trie { IsTrie nodes.now }
    requires leveled { IsLeveled nodes.now }
    requires fails { AreFails nodes.now fails.now }
    requires next { at ≡ length fails.now }
    requires within { at < length nodes.now }
    requires some { 0 < at }
    ensures earlier { result < at }
    ensures longest { (s : List ℕ) → Spells nodes.now at s → IsDeepest nodes.now (but_last s) result }
{
    let parent = parent_of(nodes, at);
    if parent == 0 {
        0
    } else {
        after(nodes, fails, fails[parent], nodes[at].byte)
    }
}

/// The longest of the trie's texts that a text with a byte before it begins with, where that of the text is given.
pub fn after(nodes: &[Node], fails: &[usize], start: usize, byte: u8) -> usize
    requires trie { IsTrie nodes.now }
    requires fails { AreFails nodes.now fails.now }
    requires within { start < length fails.now }
    ensures within { result < length nodes.now }
    ensures longest { (t : List ℕ) → IsDeepest nodes.now t start → IsDeepest nodes.now (byte ∷ t) result }
{
    let mut at = start;
    while at != 0 {
        if let Some(child) = child_of(nodes, at, byte) {
            return child;
        }
        at = fails[at];
    }
    match child_of(nodes, 0, byte) {
        Some(child) => child,
        None => 0,
    }
}

/// For each place of a text the longest of the trie's texts that stands there.
pub fn states_of(
    alloc: Global,
    nodes: &[Node],
    fails: &[usize],
    text: &[u8],
) -> Result<Vec<usize>, AllocError>
    requires trie { IsTrie nodes.now }
    requires fails { AreFails nodes.now fails.now }
    requires size { length fails.now ≡ length nodes.now }
    ensures { IfOk result (λ v. AreStates nodes.now text.now v.items) }
{
    let mut states = vec![in alloc; 0; text.len()]?;
    let mut at = 0;
    let mut left = text.len();
    while left > 0 {
        left -= 1;
        at = after(nodes, fails, at, text[left]);
        states[left] = at;
    }
    Ok(states)
}
