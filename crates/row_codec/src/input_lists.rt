//! Lists of inputs.
ghost use Rattle.std.specs.Prelude.{◌≡◌, IfOk, IfErr};
ghost use Rattle.plan_codec.specs.Parts.{spelled_list, AreAll};
ghost use Rattle.plan_codec.specs.Sheets.{behind};
ghost use Rattle.plan_codec.specs.Spellings.{Takes, Refuses};
ghost use Rattle.row_codec.specs.Records.{spelled_input, IsProperInput};

use crate::inputs::put_input;
use crate::of::Of;
use plan_codec::{Readable, Seq, Sheet, Unread, put_number};
use std::alloc::Global;
use sync_points::SharedInput;

impl Readable for Of<Seq<SharedInput>> {
    ghost use Rattle.plan_codec.specs.Parts.{spelled_list, AreAll};
    ghost use Rattle.plan_codec.specs.Laws.{list_unique};
    ghost use Rattle.row_codec.specs.Records.{spelled_input, IsProperInput};
    ghost use Rattle.row_codec.specs.RecordLaws.{input_unique};

    ghost spelled = { spelled_list spelled_input };

    ghost proper = { AreAll IsProperInput };

    fn read<'a>(
        alloc: Global,
        bytes: &'a [u8],
    ) -> Result<(Of<Seq<SharedInput>>, &'a [u8]), Unread> {
        let (items, rest) = inputs_at(alloc, bytes)?;
        Ok((
            Of {
                thing: Seq::from_vec(items),
            },
            rest,
        ))
    }

    ghost unique = { list_unique input_unique };
}

// The inputs at the front: how many, and each. Nothing is taken for what their number claims: the list grows as
// inputs are read.
fn inputs_at(alloc: Global, bytes: &[u8]) -> Result<(Vec<SharedInput>, &[u8]), Unread>
    ensures ok { IfOk result (λ x. Takes (spelled_list spelled_input) (AreAll IsProperInput) bytes.now x.0.items x.1.now) }
    ensures err { IfErr result (Refuses (spelled_list spelled_input) (AreAll IsProperInput) bytes.now) }
{
    let (count, mut rest) = u64::read(alloc, bytes)?;
    let mut all = Vec::new(alloc);
    for _ in 0..count {
        let (input, behind) = Of::<SharedInput>::read(alloc, rest)?;
        all.push(input.thing)?;
        rest = behind;
    }
    Ok((all, rest))
}

/// Puts how many inputs there are, and each of them.
pub(crate) fn put_inputs(inputs: &[SharedInput], sheet: &mut Sheet)
    ensures bytes { sheet.new ≡ behind sheet.old (spelled_list spelled_input inputs.now) }
    ensures proper { AreAll IsProperInput inputs.now }
{
    put_number(inputs.len() as u64, sheet);
    for input in inputs {
        put_input(input.input(), sheet);
    }
}
