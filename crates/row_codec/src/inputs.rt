//! Inputs of points.
ghost use Rattle.std.specs.Prelude.{◌≡◌, IfOk, IfErr};
ghost use Rattle.plan_codec.specs.Sheets.{behind};
ghost use Rattle.plan_codec.specs.Spellings.{Takes, Refuses};
ghost use Rattle.row_codec.specs.Records.{spelled_input, IsProperInput};
ghost use Rattle.row_codec.specs.RecordLaws.{input_parts};

use crate::of::Of;
use plan_codec::{Facts, Readable, ResName, RowNo, Sheet, Unread, Writable};
use std::alloc::Global;
use sync_points::{Input, SharedInput};

// The parts in their order.
type Parts = (u32, (Option<ResName>, (RowNo, Option<Facts>)));

impl Readable for Of<SharedInput> {
    ghost use Rattle.row_codec.specs.Records.{spelled_input, IsProperInput};
    ghost use Rattle.row_codec.specs.RecordLaws.{input_unique};

    ghost spelled = { spelled_input };

    ghost proper = { IsProperInput };

    fn read<'a>(alloc: Global, bytes: &'a [u8]) -> Result<(Of<SharedInput>, &'a [u8]), Unread> {
        let (input, rest) = input_at(alloc, bytes)?;
        let input = SharedInput::new(alloc, input)?;
        Ok((Of { thing: input }, rest))
    }

    ghost unique = { input_unique };
}

// The input at the front.
fn input_at(alloc: Global, bytes: &[u8]) -> Result<(Input, &[u8]), Unread>
    ensures ok { IfOk result (λ x. Takes spelled_input IsProperInput bytes.now x.0 x.1.now) }
    ensures err { IfErr result (Refuses spelled_input IsProperInput bytes.now) }
{
    let (parts, rest) = Parts::read(alloc, bytes)?;
    Ok((input_of(parts), rest))
}

// The input of its parts.
#[tactic(auto, unfolding(crate::specs::RecordLaws::input_parts))]
fn input_of(parts: Parts) -> Input
    ensures { result ≡ input_parts.to parts }
{
    let (from, (name, (row, facts))) = parts;
    Input {
        from,
        name,
        row,
        facts,
    }
}

/// Puts an input.
#[tactic(auto, using(crate::proofs::Puts::puts), unfolding(crate::specs::Records::spelled_input))]
pub(crate) fn put_input(input: &Input, sheet: &mut Sheet)
    ensures bytes { sheet.new ≡ behind sheet.old (spelled_input input.now) }
    ensures proper { IsProperInput input.now }
{
    input.from.put(sheet);
    input.name.put(sheet);
    input.row.put(sheet);
    input.facts.put(sheet);
}
