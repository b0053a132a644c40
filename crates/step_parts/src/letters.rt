//! Letters: made in the order of their nodes, their numbers drawn, and sent.
ghost use Rattle.std.specs.Prelude.{◌≡◌, ◌≤◌, ◌+◌, ◌^◌, IfOk, length, map};
ghost use Rattle.core_state.specs.declared.change.Change.TheVariants.{Send};
ghost use Rattle.core_state.specs.declared.entry.MailWrite.TheVariants.{Sent};
ghost use Rattle.step_relation.specs.Writes.{draw_letters, letter_to, letters_to, past_letters};

use crate::lists::with_first;
use core_state::{Batch, Change, Letter, MailWrite, Next, Numbers, Stack};
use heat_plan::LetterNo;
use heat_value::{Seq, TryCopy};
use std::alloc::{AllocError, Global};

/// A letter to a node of the stack's newest traversal.
pub fn letter_to(stack: &Stack, number: LetterNo, node: u32) -> Result<Letter, AllocError>
    ensures { IfOk result (λ l. l ≡ letter_to stack.now number node) }
{
    Ok(Letter {
        no: number,
        stack: stack.name.copy()?,
        trav: stack.trav,
        node,
    })
}

/// Letters to these nodes, numbered in their order.
pub fn letters_to(
    alloc: Global,
    stack: &Stack,
    first: Next,
    nodes: &[u32],
) -> Result<Batch<Letter>, AllocError>
    requires { first + length nodes.now ≤ 2 ^ 62 }
    ensures { IfOk result (λ letters. letters ≡ letters_to stack.now first nodes.now) }
{
    let first = first.get();
    let mut letters = Batch::new(alloc);
    for (i, node) in nodes.iter().enumerate() {
        let number = LetterNo::new(first + i as u64).unwrap();
        letters.push(letter_to(stack, number, *node)?)?;
    }
    Ok(letters)
}

/// The next numbers behind so many letters.
pub fn past_letters(next: &Numbers, count: usize) -> Numbers
    requires { next.now.letter + count ≤ 2 ^ 62 }
    ensures { result ≡ past_letters next.now count }
{
    let mut past = *next;
    past.letter = next.letter.after(count as u64);
    past
}

/// The numbers of letters are drawn, where there are any, before the changes `rest`.
pub fn draw_letters(
    alloc: Global,
    next: &Numbers,
    letters: &[Letter],
    rest: Batch<Change>,
) -> Result<Batch<Change>, AllocError>
    requires { next.now.letter + length letters.now ≤ 2 ^ 62 }
    ensures { IfOk result (λ changes. changes ≡ draw_letters next.now letters.now rest) }
{
    match letters {
        [] => Ok(rest),
        [_, ..] => {
            let past = past_letters(next, letters.len());
            with_first(alloc, Change::Numbers(past), rest)
        }
    }
}

/// The sending of each letter.
pub fn sends(alloc: Global, letters: &[Letter]) -> Result<Batch<Change>, AllocError>
    ensures { IfOk result (λ changes. changes ≡ map Send letters.now) }
{
    let mut changes = Batch::new(alloc);
    for letter in letters {
        changes.push(Change::Send(letter.copy()?))?;
    }
    Ok(changes)
}

/// What is told of the sending of each letter.
pub fn sent_all(alloc: Global, letters: &[Letter]) -> Result<Seq<MailWrite>, AllocError>
    ensures { IfOk result (λ writes. writes ≡ map Sent letters.now) }
{
    let mut writes = Seq::with_capacity(alloc, letters.len())?;
    for letter in letters {
        writes.push(MailWrite::Sent(letter.copy()?))?;
    }
    Ok(writes)
}
