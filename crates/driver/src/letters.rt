//! What the waiting letters stand for.
ghost use Rattle.std.specs.Prelude.{◌≡◌, ◌≤◌, ◌<◌, ◌^◌, Some};
ghost use Rattle.mail_table.specs.Mails.{letter_at};
ghost use Rattle.bound_laws.specs.Rolls.{RollLetter};
ghost use Rattle.driver.specs.Keyed.{AreKeyed};
ghost use Rattle.driver.specs.Parts.{IsOne, LettersWork};

use crate::rolls::may_roll;
use core_state::{Letter, State};

/// 69 for each letter, and 69 more where a rollback could stand behind it.
pub(crate) fn letters_work(s: &State) -> u128
    requires { AreKeyed s.now.state }
    ensures exact { LettersWork s.now.state result }
    ensures bound { result < 2 ^ 80 }
{
    let mut sum = 0;
    for letter in s.letters() {
        sum += 69 + 69 * roll_letter(s, letter);
    }
    sum
}

// One where the letter is of its stack's newest traversal, which may be rolled back; else none.
fn roll_letter(s: &State, letter: &Letter) -> u128
    requires { letter_at s.now.state.letters letter.now.no ≡ Some letter.now }
    ensures exact { IsOne (RollLetter s.now.state letter.now.no) result }
    ensures bound { result ≤ 1 }
{
    match may_roll(s, &letter.stack) {
        Some(stack) if letter.trav == stack.trav => 1,
        _ => 0,
    }
}
