//! The forms that the words may have.
ghost use Rattle.std.specs.Prelude.{◌≡◌, ◌≤◌, ◌∷◌, ◌++◌, ◌↔◌, [], ℕ, List, Err, codes, IfOk, IsTrue};
ghost use Rattle.converge_call.specs.Words.{EndsWith, IsForm, setup_for, setup_of};
ghost use Rattle.converge_call.specs.Choices.{said_of};
ghost use Rattle.converge_call.specs.declared.setup.Mode.{Mode as mode_type};

use crate::chosen::{Chosen, said_by};
use crate::setup::{Mode, Setup, WordsFault};
use heat_value::Text;
use std::alloc::{AllocError, Global};

/// The mode whose form the words are: `drive`, behind it the options `--workers n` and `--cloud file`, each
/// once at most and its value in a word of its own or behind `=`, and behind these at most one word `--`.
pub fn words_of(alloc: Global, words: &[Text]) -> Result<Mode, WordsFault>
    ensures ok { IfOk result (λ m. IsForm words.now m) }
    ensures usage { result ≡ Err WordsFault.Usage → (m : mode_type) → ¬ IsForm words.now m }
    ensures workers { IfOk result (λ m. (1 ≤ (setup_of m).workers) × ((setup_of m).workers ≤ 64)) }
    ensures memory { result ≡ Err WordsFault.Memory → (m : mode_type) × IsForm words.now m }
    ensures one { (a b : mode_type) → IsForm words.now a → IsForm words.now b → a ≡ b }
{
    let Some((first, behind)) = words.split_first() else {
        return Err(WordsFault::Usage);
    };
    if !is_word(first, "drive") {
        return Err(WordsFault::Usage);
    }
    match said_by(options_in(behind)) {
        Some(chosen) => Ok(Mode::Drive(set_up(alloc, chosen)?)),
        None => Err(WordsFault::Usage),
    }
}

// Whether this is the word.
fn is_word(text: &Text, word: &str) -> bool
    ensures { IsTrue result ↔ (text.now ≡ word.now) }
{
    text.as_str() == word
}

// The options, without the word that ends them.
fn options_in(behind: &[Text]) -> &[Text]
    ensures ends { EndsWith behind.now result.now }
    ensures cut { (before : List (List ℕ)) → behind.now ≡ before ++ codes "--" ∷ [] → result.now ≡ before }
{
    let Some((last, options)) = behind.split_last() else {
        return behind;
    };
    if is_word(last, "--") { options } else { behind }
}

// What is set up where the options say this: one worker, where they don't say how many.
fn set_up(alloc: Global, chosen: Chosen<'_>) -> Result<Setup, AllocError>
    ensures { IfOk result (λ s. s ≡ setup_for (said_of chosen.entry)) }
{
    let cloud = match chosen.cloud {
        Some(path) => Some(Text::from_str(alloc, path)?),
        None => None,
    };
    let workers = chosen.workers.unwrap_or(1);
    Ok(Setup { workers, cloud })
}
