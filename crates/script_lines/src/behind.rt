//! What stands behind a word of a line.
ghost use Rattle.std.specs.Prelude.{◌≡◌, ◌≢◌, ◌≤◌, ℕ, List, MatchOption, SomeIff, IfSome, IsNone, decimal};
ghost use Rattle.heat_plan.specs.Numbers.{IsNumber};
ghost use Rattle.script_lines.specs.Behind.{IsLone, IsText, IsWordAndText, IsCount};

use crate::words::{behind_spaces, first_word, is_blank};
use heat_plan::{EngineNo, RowNo};

/// How many turns a line may ask for.
pub const MOST_TURNS: u64 = 1_000_000;

/// The one word that stands there.
pub fn lone_word(rest: &[u8]) -> Option<&[u8]>
    ensures { MatchOption result ((w : List ℕ) → ¬ IsLone rest.now w) (λ w. IsLone rest.now w.now) }
{
    let Some((word, last)) = first_word(rest) else {
        return None;
    };
    if !is_blank(last) {
        return None;
    }
    Some(word)
}

/// The text that stands there behind spaces.
pub fn text_behind(rest: &[u8]) -> Option<&[u8]>
    ensures { MatchOption result ((t : List ℕ) → ¬ IsText rest.now t) (λ t. IsText rest.now t.now) }
{
    let text = behind_spaces(rest);
    if text.is_empty() {
        return None;
    }
    Some(text)
}

/// The word that stands there, and the text behind it.
pub fn word_and_text(rest: &[u8]) -> Option<(&[u8], &[u8])>
    ensures { MatchOption result ((w t : List ℕ) → ¬ IsWordAndText rest.now w t)
        (λ p. IsWordAndText rest.now p.0.now p.1.now) }
{
    let Some((word, more)) = first_word(rest) else {
        return None;
    };
    let Some(text) = text_behind(more) else {
        return None;
    };
    Some((word, text))
}

/// The engine's number that a word writes.
pub fn engine_no(word: &[u8]) -> Option<EngineNo>
    ensures some { IfSome result (λ n. IsNumber n × (decimal n ≡ word.now)) }
    ensures none { IsNone result → (n : ℕ) → IsNumber n → decimal n ≢ word.now }
{
    EngineNo::new(number(word)?)
}

/// The count of turns that a word writes.
pub fn count(word: &[u8]) -> Option<u64>
    ensures some { IfSome result (λ n. IsCount n × (decimal n ≡ word.now)) }
    ensures none { IsNone result → (n : ℕ) → IsCount n → decimal n ≢ word.now }
{
    let count = number(word)?;
    if count > MOST_TURNS {
        return None;
    }
    Some(count)
}

// The number that a word writes; all sorts of drawn numbers are written alike.
fn number(word: &[u8]) -> Option<u64>
    ensures some { IfSome result (λ n. IsNumber n × (decimal n ≡ word.now)) }
    ensures none { IsNone result → (n : ℕ) → IsNumber n → decimal n ≢ word.now }
{
    match RowNo::read(word) {
        Some(no) => Some(no.get()),
        None => None,
    }
}
