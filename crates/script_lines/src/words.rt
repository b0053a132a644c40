//! The words of a line, which are parted by spaces. A space is the byte 32 alone.
ghost use Rattle.std.specs.Prelude.{◌≡◌, ◌≢◌, ◌↔◌, ◌<◌, ◌≤◌, ℕ, length, slice_index, IsTrue, MatchOption};
ghost use Rattle.script_lines.specs.Words.{AreSpaces, BeginsWith, StandsBehindSpaces};

/// The first word of a text and what stands behind it, down to the spaces; none where there are
/// spaces alone.
pub fn first_word(text: &[u8]) -> Option<(&[u8], &[u8])>
    ensures { MatchOption result (AreSpaces text.now)
        (λ p. BeginsWith text.now p.0.now p.1.now) }
{
    let text = behind_spaces(text);
    if text.is_empty() {
        return None;
    }
    Some(text.split_at(letters(text)))
}

/// Whether there is no word.
pub fn is_blank(text: &[u8]) -> bool
    ensures { IsTrue result ↔ AreSpaces text.now }
{
    match first_word(text) {
        Some(_) => false,
        None => true,
    }
}

/// What stands behind the spaces that a text begins with.
pub fn behind_spaces(text: &[u8]) -> &[u8]
    ensures { StandsBehindSpaces text.now result.now }
{
    text.split_at(spaces(text)).1
}

// How many spaces a text begins with.
fn spaces(text: &[u8]) -> usize
    ensures within { result ≤ length text.now }
    ensures before { (k : ℕ) → k < result → slice_index text.now k ≡ 32 }
    ensures end { result < length text.now → slice_index text.now result ≢ 32 }
{
    for (i, byte) in text.iter().enumerate() {
        if *byte != b' ' {
            return i;
        }
    }
    text.len()
}

// How many bytes stand before the first space.
fn letters(text: &[u8]) -> usize
    ensures within { result ≤ length text.now }
    ensures before { (k : ℕ) → k < result → slice_index text.now k ≢ 32 }
    ensures end { result < length text.now → slice_index text.now result ≡ 32 }
{
    for (i, byte) in text.iter().enumerate() {
        if *byte == b' ' {
            return i;
        }
    }
    text.len()
}
