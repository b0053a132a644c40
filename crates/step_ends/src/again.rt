//! The letter that is sent again where a row is free.
ghost use Rattle.std.specs.Prelude.{◌≤◌, ◌^◌, IfErr, IfOk};
ghost use Rattle.step_ends.specs.Releases.{AreAgain, IsAgainRefusal, IsNextLetter};

use command_steps::{letter_to, one, resent};
use core_state::{Batch, Letter, State};
use heat_plan::{LetterNo, Refusal, RowNo, StackName};
use std::alloc::Global;

/// The next letter's number; none where it is worn out.
pub fn next_letter(s: &State) -> Option<LetterNo>
    ensures next { IsNextLetter s.now.state result }
    ensures range { s.now.state.next.letter ≤ 2 ^ 62 }
{
    LetterNo::new(s.next().letter.get())
}

/// The letter for the node that waits for the row, if one does; refuses `Worn` where no number is
/// left.
pub fn letters_again(
    alloc: Global,
    s: &State,
    stack: &StackName,
    row: RowNo,
    number: Option<LetterNo>,
) -> Result<Batch<Letter>, Refusal>
    requires next { IsNextLetter s.now.state number }
    requires range { s.now.state.next.letter ≤ 2 ^ 62 }
    ensures made { IfOk result (AreAgain s.now.state stack.now row) }
    ensures cause { IfErr result (IsAgainRefusal s.now.state stack.now row) }
{
    let Some(node) = resent(alloc, s, stack, row)? else {
        return Ok(Batch::new(alloc));
    };
    let Some(stack) = s.stack(stack) else {
        unreachable!()
    };
    let Some(number) = number else {
        return Err(Refusal::Worn);
    };
    Ok(one(alloc, letter_to(stack, number, node)?)?)
}
