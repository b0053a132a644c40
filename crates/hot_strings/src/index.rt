//! What is found out of keys once, for replacing them in many texts.
ghost use Rattle.std.specs.Prelude.{◌≡◌, ◌≢◌, ℕ, List, [], Some, IfOk, MatchBool, All, Any};
ghost use Rattle.std.specs.Prelude.{map, length, drop, slice_get};
ghost use Rattle.longest_keys.specs.Texts.{IsLongest};
ghost use Rattle.hot_strings.specs.Indexes.{keys_in, IsIndexOf};
ghost use Rattle.hot_strings.specs.Places.{IsPart, Lacks};

use crate::keys::has_empty_key;
use heat_value::Text;
use longest_keys::KeyFinder;
use std::alloc::{AllocError, Global};

/// Whether some key is empty, and what finds the keys in a text.
#[derive(Drop)]
pub struct KeyIndex {
    empty: bool,
    finder: KeyFinder,
}

impl KeyIndex {
    /// The index of these keys. What is put in their place doesn't count.
    pub fn new(alloc: Global, params: &[(Text, Text)]) -> Result<KeyIndex, AllocError>
        ensures { IfOk result (IsIndexOf (keys_in params.now)) }
    {
        let empty = has_empty_key(params);
        let keys = key_bytes(alloc, params)?;
        let finder = KeyFinder::new(alloc, keys.as_slice())?;
        Ok(KeyIndex { empty, finder })
    }

    /// Whether some key is empty.
    pub(crate) fn has_empty_key(&self) -> bool
        ensures { result ≡ self.now.empty }
    {
        self.empty
    }

    /// For each place of a text the number, counted from 1, of the longest key that stands there, or 0
    /// where none does.
    pub(crate) fn found_in(&self, alloc: Global, text: &str) -> Result<Vec<usize>, AllocError>
        requires of { (keys : List (List ℕ)) × IsIndexOf keys self.now }
        ensures size { IfOk result (λ v. length v.items ≡ length text.now) }
        ensures each { (keys : List (List ℕ)) → IsIndexOf keys self.now → IfOk result (λ v.
            (i m : ℕ) → slice_get v.items i ≡ Some m → IsLongest keys (drop i text.now) m) }
    {
        self.finder.found_in(alloc, text.as_bytes())
    }

    /// Whether some key stands nowhere in a text.
    pub(crate) fn lacks_some(&self, alloc: Global, text: &str) -> Result<bool, AllocError>
        requires of { (keys : List (List ℕ)) × IsIndexOf keys self.now }
        ensures { (keys : List (List ℕ)) → IsIndexOf keys self.now → All (λ k. k ≢ []) keys
            → IfOk result (λ b. MatchBool b (Any (λ k. Lacks k text.now) keys) (All (λ k. IsPart k text.now) keys)) }
    {
        self.finder.lacks_some(alloc, text.as_bytes())
    }
}

// The keys' bytes.
fn key_bytes<'a>(alloc: Global, params: &'a [(Text, Text)]) -> Result<Vec<&'a [u8]>, AllocError>
    ensures { IfOk result (λ v. map (λ k. k.now) v.items ≡ keys_in params.now) }
{
    let mut keys = Vec::with_capacity(alloc, params.len())?;
    for param in params {
        keys.push(param.0.as_str().as_bytes())?;
    }
    Ok(keys)
}
