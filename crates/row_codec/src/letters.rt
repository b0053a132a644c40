//! Letters.
ghost use Rattle.std.specs.Prelude.{◌≡◌};
ghost use Rattle.plan_codec.specs.Sheets.{behind};
ghost use Rattle.row_codec.specs.Records.{spelled_letter, IsProperLetter};
ghost use Rattle.row_codec.specs.RecordLaws.{letter_parts};

use crate::of::Of;
use mail_table::Letter;
use plan_codec::{LetterNo, Readable, Sheet, StackName, TravNo, Unread, Writable};
use std::alloc::Global;

// The parts in their order.
type Parts = (LetterNo, (StackName, (TravNo, u32)));

impl Readable for Of<Letter> {
    ghost use Rattle.row_codec.specs.Records.{spelled_letter, IsProperLetter};
    ghost use Rattle.row_codec.specs.RecordLaws.{letter_unique};

    ghost spelled = { spelled_letter };

    ghost proper = { IsProperLetter };

    fn read<'a>(alloc: Global, bytes: &'a [u8]) -> Result<(Of<Letter>, &'a [u8]), Unread> {
        let (parts, rest) = Parts::read(alloc, bytes)?;
        Ok((
            Of {
                thing: letter_of(parts),
            },
            rest,
        ))
    }

    ghost unique = { letter_unique };
}

// The letter of its parts.
#[tactic(auto, unfolding(crate::specs::RecordLaws::letter_parts))]
fn letter_of(parts: Parts) -> Letter
    ensures { result ≡ letter_parts.to parts }
{
    let (no, (stack, (trav, node))) = parts;
    Letter {
        no,
        stack,
        trav,
        node,
    }
}

/// Puts a letter.
#[tactic(auto, using(crate::proofs::Puts::puts), unfolding(crate::specs::Records::spelled_letter))]
pub(crate) fn put_letter(letter: &Letter, sheet: &mut Sheet)
    ensures bytes { sheet.new ≡ behind sheet.old (spelled_letter letter.now) }
    ensures proper { IsProperLetter letter.now }
{
    letter.no.put(sheet);
    letter.stack.put(sheet);
    letter.trav.put(sheet);
    letter.node.put(sheet);
}
