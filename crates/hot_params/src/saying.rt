//! What texts say of numbers and flags.
ghost use Rattle.std.specs.Prelude.{◌≡◌, MatchOption, map};
ghost use Rattle.hot_params.specs.Texts.{IsWholeText, whole_of, is_spelled as the_is_spelled};
ghost use Rattle.hot_params.specs.Texts.{is_word_of as the_is_word_of, flag_said as the_flag_said};

// The words for a flag that is set, and for one that isn't.
const YES: [&str; 6] = ["t", "true", "on", "y", "yes", "1"];

const NO: [&str; 6] = ["f", "false", "off", "n", "no", "0"];

/// The number that an optional `-` and digits write.
pub fn whole_said(text: &str) -> Option<i64>
    ensures { MatchOption result (¬ IsWholeText text.now)
        (λ z. IsWholeText text.now × (z ≡ whole_of text.now)) }
{
    if text.as_bytes().first() == Some(&b'+') {
        return None;
    }
    text.parse::<i64>().ok()
}

/// The flag that a text says.
pub fn flag_said(text: &str) -> Option<bool>
    ensures { result ≡ the_flag_said text.now }
{
    if is_word_of(&YES, text) {
        return Some(true);
    }
    if is_word_of(&NO, text) {
        return Some(false);
    }
    None
}

// Whether a text is one of these words, ignoring case.
fn is_word_of(known: &[&str], text: &str) -> bool
    ensures { result ≡ the_is_word_of (map (λ n. n.now) known.now) text.now }
{
    for word in known {
        if is_spelled(text, word) {
            return true;
        }
    }
    false
}

// Whether the two are one text, ignoring the case of ASCII letters.
fn is_spelled(text: &str, word: &str) -> bool
    ensures { result ≡ the_is_spelled text.now word.now }
{
    text.eq_ignore_ascii_case(word)
}
