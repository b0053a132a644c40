//! What is found out of keys once, for looking for them in many texts.
ghost use Rattle.std.specs.Prelude.{◌≡◌, ◌≢◌, ◌<◌, ℕ, suc, List, [], Some, IfOk, MatchBool, All, Any, map, length, drop, slice_get};
ghost use Rattle.longest_keys.specs.Texts.{IsLongest, IsPart, Lacks};
ghost use Rattle.longest_keys.specs.Finders.{IsFinderOf, IsOwn, IsNumbered};
ghost use Rattle.longest_keys.specs.Walks.{AreEarlier};

use crate::growing::{KeyTrie, trie_of};
use crate::marking::{lacks_mark, mark_fails, mark_states};
use crate::trie::Node;
use crate::walking::{fails_of, states_of};
use std::alloc::{AllocError, Global};

/// The trie of the texts that the keys end with; for each key its node; for each node the place of the longest of the
/// trie's texts that its text begins with and that is shorter, and the number of the longest key that its text begins with.
#[derive(Drop)]
pub struct KeyFinder {
    nodes: Vec<Node>,
    ends: Vec<usize>,
    fails: Vec<usize>,
    longest: Vec<usize>,
}

impl KeyFinder {
    /// The finder of these keys.
    pub fn new(alloc: Global, keys: &[&[u8]]) -> Result<KeyFinder, AllocError>
        ensures { IfOk result (IsFinderOf (map (λ k. k.now) keys.now)) }
    {
        let KeyTrie { nodes, ends } = trie_of(alloc, keys)?;
        let fails = fails_of(alloc, nodes.as_slice())?;
        let own = own_of(alloc, nodes.len(), ends.as_slice())?;
        let longest = longest_of(alloc, own.as_slice(), fails.as_slice())?;
        Ok(KeyFinder {
            nodes,
            ends,
            fails,
            longest,
        })
    }

    /// For each place of a text the number, counted from 1, of the longest key that stands there, or 0 where none does.
    pub fn found_in(&self, alloc: Global, text: &[u8]) -> Result<Vec<usize>, AllocError>
        requires of { (keys : List (List ℕ)) × IsFinderOf keys self.now }
        ensures size { IfOk result (λ v. length v.items ≡ length text.now) }
        ensures each { (keys : List (List ℕ)) → IsFinderOf keys self.now → IfOk result (λ v.
            (i m : ℕ) → slice_get v.items i ≡ Some m → IsLongest keys (drop i text.now) m) }
    {
        let mut found = states_of(alloc, self.nodes.as_slice(), self.fails.as_slice(), text)?;
        for i in 0..found.len() {
            found[i] = self.longest[found[i]];
        }
        Ok(found)
    }

    /// Whether some key stands nowhere in a text.
    pub fn lacks_some(&self, alloc: Global, text: &[u8]) -> Result<bool, AllocError>
        requires of { (keys : List (List ℕ)) × IsFinderOf keys self.now }
        ensures { (keys : List (List ℕ)) → IsFinderOf keys self.now → All (λ k. k ≢ []) keys
            → IfOk result (λ b. MatchBool b (Any (λ k. Lacks k text.now) keys) (All (λ k. IsPart k text.now) keys)) }
    {
        let states = states_of(alloc, self.nodes.as_slice(), self.fails.as_slice(), text)?;
        let mut marks = vec![in alloc; false; self.fails.len()]?;
        mark_states(states.as_slice(), &mut marks);
        mark_fails(self.fails.as_slice(), &mut marks);
        Ok(lacks_mark(self.ends.as_slice(), marks.as_slice()))
    }
}

// For each node the number, counted from 1, of a key that ends there, or 0 where none does.
fn own_of(alloc: Global, count: usize, ends: &[usize]) -> Result<Vec<usize>, AllocError>
    requires { All (λ e. e < count) ends.now }
    ensures size { IfOk result (λ v. length v.items ≡ count) }
    ensures each { IfOk result (λ v. (e m : ℕ) → slice_get v.items e ≡ Some m → IsOwn ends.now e m) }
{
    let mut own = vec![in alloc; 0; count]?;
    for i in 0..ends.len() {
        own[ends[i]] = i + 1;
    }
    Ok(own)
}

// For each node the number of the longest key that its text begins with.
fn longest_of(alloc: Global, own: &[usize], fails: &[usize]) -> Result<Vec<usize>, AllocError>
    requires some { 0 < length own.now }
    requires size { length fails.now ≡ length own.now }
    requires earlier { AreEarlier fails.now }
    ensures size { IfOk result (λ v. length v.items ≡ length own.now) }
    ensures each { IfOk result (λ v. (i : ℕ) → IsNumbered own.now fails.now v.items i) }
{
    let mut longest = Vec::with_capacity(alloc, own.len())?;
    longest.push(own[0])?;
    for i in 1..own.len() {
        let number = number_of(own, fails, longest.as_slice());
        longest.push(number)?;
    }
    Ok(longest)
}

// The number of the node behind those that have theirs.
fn number_of(own: &[usize], fails: &[usize], numbers: &[usize]) -> usize
    requires some { 0 < length numbers.now }
    requires within { length numbers.now < length own.now }
    requires size { length fails.now ≡ length own.now }
    requires earlier { AreEarlier fails.now }
    ensures mine { (n : ℕ) → slice_get own.now (length numbers.now) ≡ Some (suc n) → result ≡ suc n }
    ensures led { slice_get own.now (length numbers.now) ≡ Some 0
        → (f : ℕ) → slice_get fails.now (length numbers.now) ≡ Some f → slice_get numbers.now f ≡ Some result }
{
    let at = numbers.len();
    if own[at] == 0 {
        numbers[fails[at]]
    } else {
        own[at]
    }
}
