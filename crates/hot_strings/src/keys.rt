//! Keys as a replacement wants them: none twice, none empty; and whether they rise.
ghost use Rattle.std.specs.Prelude.{◌≢◌, ◌↔◌, IsTrue, MatchBool, All};
ghost use Rattle.hot_strings.specs.Indexes.{keys_in};
ghost use Rattle.hot_strings.specs.Pieces.{AreDistinct, HasEmptyKey, HasNoEmptyKey};
ghost use Rattle.hot_strings.specs.Rising.{Rising};

use heat_value::Text;
use std::cmp::Ordering;

/// Whether no two keys are the same. Where they don't rise in byte order, each two are looked at.
pub fn are_distinct(params: &[(Text, Text)]) -> bool
    ensures { IsTrue result ↔ AreDistinct params.now }
{
    if keys_rise(params) {
        return true;
    }
    for i in 0..params.len() {
        if !lacks_key(&params[i + 1..], &params[i].0) {
            return false;
        }
    }
    true
}

// Whether no key is this one.
fn lacks_key(params: &[(Text, Text)], key: &Text) -> bool
    ensures { IsTrue result ↔ All (λ p. p.0 ≢ key.now) params.now }
{
    params.iter().all(|param| param.0 != *key)
}

/// Whether each key is below the one behind it, in byte order.
pub fn keys_rise(params: &[(Text, Text)]) -> bool
    ensures { IsTrue result ↔ Rising (keys_in params.now) }
{
    for i in 1..params.len() {
        if params[i - 1].0.cmp(&params[i].0) != Ordering::Less {
            return false;
        }
    }
    true
}

/// Whether some key is empty.
pub fn has_empty_key(params: &[(Text, Text)]) -> bool
    ensures { MatchBool result (HasEmptyKey params.now) (HasNoEmptyKey params.now) }
{
    for param in params {
        if param.0.as_str().is_empty() {
            return true;
        }
    }
    false
}
