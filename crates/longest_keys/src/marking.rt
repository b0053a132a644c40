//! Marking the nodes whose texts stand somewhere in a text.
ghost use Rattle.std.specs.Prelude.{◌≡◌, ◌<◌, ◌↔◌, ℕ, List, Bool, true, false, Some, MatchBool, All, Any, length, slice_get};
ghost use Rattle.longest_keys.specs.Marks.{AreOfParts, HaveParts};
ghost use Rattle.longest_keys.specs.Tries.{IsTrie};
ghost use Rattle.longest_keys.specs.Walks.{AreEarlier, AreFails};
ghost use Rattle.longest_keys.specs.declared.trie.Node.{Node};

/// Marks the nodes of these places.
pub fn mark_states(states: &[usize], marks: &mut Vec<bool>)
    requires within { All (λ q. q < length marks.old.items) states.now }
    requires none { All (λ m. m ≡ false) marks.old.items }
    ensures size { length marks.new.items ≡ length marks.old.items }
    ensures marked { (i : ℕ) → (slice_get marks.new.items i ≡ Some true) ↔ ((p : ℕ) × (slice_get states.now p ≡ Some i)) }
{
    for i in 0..states.len() {
        marks[states[i]] = true;
    }
}

/// Marks each node whose text begins that of a marked one: from the last to the first, the longest that is shorter.
pub fn mark_fails(fails: &[usize], marks: &mut Vec<bool>)
    requires earlier { AreEarlier fails.now }
    requires size { length fails.now ≡ length marks.old.items }
    ensures size { length marks.new.items ≡ length marks.old.items }
    ensures only { (nodes : List Node) (s : List ℕ) → IsTrie nodes → AreFails nodes fails.now
        → AreOfParts nodes s marks.old.items → AreOfParts nodes s marks.new.items }
    ensures all { (nodes : List Node) (s : List ℕ) → IsTrie nodes → AreFails nodes fails.now
        → HaveParts nodes s marks.old.items (length fails.now) → HaveParts nodes s marks.new.items 0 }
{
    let mut left = fails.len();
    while left > 0 {
        left -= 1;
        if marks[left] {
            marks[fails[left]] = true;
        }
    }
}

/// Whether the mark of some of these is missing.
pub fn lacks_mark(ends: &[usize], marks: &[bool]) -> bool
    requires { All (λ e. e < length marks.now) ends.now }
    ensures { MatchBool result (Any (λ e. slice_get marks.now e ≡ Some false) ends.now)
        (All (λ e. slice_get marks.now e ≡ Some true) ends.now) }
{
    for i in 0..ends.len() {
        if !marks[ends[i]] {
            return true;
        }
    }
    false
}
