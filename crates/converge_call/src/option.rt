//! An option with its value, in two words or in one.
ghost use Rattle.std.specs.Prelude.{◌≡◌, ◌≢◌, ◌++◌, ◌∷◌, ℕ, List, MatchOption};
ghost use Rattle.converge_call.specs.Options.{HasOption};

use heat_value::Text;

/// The value of the option of this name, where it stands in front, and what stands behind it.
pub fn option_in<'w>(options: &'w [Text], name: &str) -> Option<(&'w str, &'w [Text])>
    ensures { MatchOption result
        ((value : List ℕ) (rest : List (List ℕ)) → ¬ HasOption name.now value rest options.now)
        (λ r. HasOption name.now r.0.now r.1.now options.now) }
{
    let (first, behind) = options.split_first()?;
    let word = first.as_str();
    if word == name {
        let (value, rest) = behind.split_first()?;
        return Some((value.as_str(), rest));
    }
    Some((value_in(word, name)?, behind))
}

// The value behind `=`, in one word with its name.
fn value_in<'w>(word: &'w str, name: &str) -> Option<&'w str>
    ensures { MatchOption result
        ((value : List ℕ) → word.now ≢ name.now ++ 61 ∷ value)
        (λ value. word.now ≡ name.now ++ 61 ∷ value.now) }
{
    word.strip_prefix(name)?.strip_prefix('=')
}
