//! Acts.
ghost use Rattle.std.specs.Prelude.{◌≡◌};
ghost use Rattle.plan_codec.specs.Sheets.{behind};
ghost use Rattle.row_codec.specs.Words.{spelled_act};

use crate::of::Of;
use plan_codec::{Act, Readable, Sheet, Unread};
use std::alloc::Global;

impl Readable for Of<Act> {
    ghost use Rattle.row_codec.specs.Words.{spelled_act, IsAct};
    ghost use Rattle.row_codec.specs.WordLaws.{act_unique};

    ghost spelled = { spelled_act };

    ghost proper = { IsAct };

    fn read<'a>(_alloc: Global, bytes: &'a [u8]) -> Result<(Of<Act>, &'a [u8]), Unread> {
        match bytes {
            [0, rest @ ..] => Ok((Of { thing: Act::Init }, rest)),
            [1, rest @ ..] => Ok((Of { thing: Act::Create }, rest)),
            [2, rest @ ..] => Ok((Of { thing: Act::Update }, rest)),
            [3, rest @ ..] => Ok((Of { thing: Act::Delete }, rest)),
            [4, rest @ ..] => Ok((
                Of {
                    thing: Act::Rollback,
                },
                rest,
            )),
            _ => Err(Unread::Unspelled),
        }
    }

    ghost unique = { act_unique };
}

/// Puts an act.
pub(crate) fn put_act(act: Act, sheet: &mut Sheet)
    ensures { sheet.new ≡ behind sheet.old (spelled_act act) }
{
    match act {
        Act::Init => sheet.put(0),
        Act::Create => sheet.put(1),
        Act::Update => sheet.put(2),
        Act::Delete => sheet.put(3),
        Act::Rollback => sheet.put(4),
    }
}
