//! The next numbers of all sorts.
ghost use Rattle.std.specs.Prelude.{◌≡◌, IfOk, IfErr};
ghost use Rattle.plan_codec.specs.Sheets.{behind};
ghost use Rattle.plan_codec.specs.Spellings.{Takes, Refuses};
ghost use Rattle.row_codec.specs.Records.{spelled_numbers, IsProperNumbers};
ghost use Rattle.row_codec.specs.RecordLaws.{numbers_parts};

use crate::nexts::put_next;
use crate::of::Of;
use core_state::{Next, Numbers};
use plan_codec::{Readable, Sheet, Unread};
use std::alloc::Global;

// The parts in their order.
type Parts = (Of<Next>, (Of<Next>, (Of<Next>, (Of<Next>, Of<Next>))));

/// The next numbers at the front.
pub(crate) fn next_numbers_at(alloc: Global, bytes: &[u8]) -> Result<(Numbers, &[u8]), Unread>
    ensures ok { IfOk result (λ x. Takes spelled_numbers IsProperNumbers bytes.now x.0 x.1.now) }
    ensures err { IfErr result (Refuses spelled_numbers IsProperNumbers bytes.now) }
{
    let (parts, rest) = Parts::read(alloc, bytes)?;
    Ok((numbers_of(parts), rest))
}

// The next numbers of its parts.
#[tactic(auto, unfolding(crate::specs::RecordLaws::numbers_parts))]
fn numbers_of(parts: Parts) -> Numbers
    ensures { result ≡ numbers_parts.to parts }
{
    let (stack, (trav, (row, (engine, letter)))) = parts;
    Numbers {
        stack: stack.thing,
        trav: trav.thing,
        row: row.thing,
        engine: engine.thing,
        letter: letter.thing,
    }
}

/// Puts the next numbers.
#[tactic(auto, using(crate::proofs::Puts::puts), unfolding(crate::specs::Records::spelled_numbers))]
pub(crate) fn put_numbers(numbers: &Numbers, sheet: &mut Sheet)
    ensures bytes { sheet.new ≡ behind sheet.old (spelled_numbers numbers.now) }
    ensures proper { IsProperNumbers numbers.now }
{
    put_next(numbers.stack, sheet);
    put_next(numbers.trav, sheet);
    put_next(numbers.row, sheet);
    put_next(numbers.engine, sheet);
    put_next(numbers.letter, sheet);
}
