//! Stages of jobs.
ghost use Rattle.std.specs.Prelude.{◌≡◌};
ghost use Rattle.plan_codec.specs.Sheets.{behind};
ghost use Rattle.row_codec.specs.Words.{spelled_stage};

use crate::of::Of;
use mail_table::Stage;
use plan_codec::{Readable, Sheet, Unread};
use std::alloc::Global;

impl Readable for Of<Stage> {
    ghost use Rattle.row_codec.specs.Words.{spelled_stage, IsStage};
    ghost use Rattle.row_codec.specs.WordLaws.{stage_unique};

    ghost spelled = { spelled_stage };

    ghost proper = { IsStage };

    fn read<'a>(_alloc: Global, bytes: &'a [u8]) -> Result<(Of<Stage>, &'a [u8]), Unread> {
        match bytes {
            [0, rest @ ..] => Ok((
                Of {
                    thing: Stage::Taken,
                },
                rest,
            )),
            [1, rest @ ..] => Ok((
                Of {
                    thing: Stage::Asking,
                },
                rest,
            )),
            [2, rest @ ..] => Ok((
                Of {
                    thing: Stage::Polling,
                },
                rest,
            )),
            [3, rest @ ..] => Ok((
                Of {
                    thing: Stage::Ending,
                },
                rest,
            )),
            _ => Err(Unread::Unspelled),
        }
    }

    ghost unique = { stage_unique };
}

/// Puts a stage.
pub(crate) fn put_stage(stage: Stage, sheet: &mut Sheet)
    ensures { sheet.new ≡ behind sheet.old (spelled_stage stage) }
{
    match stage {
        Stage::Taken => sheet.put(0),
        Stage::Asking => sheet.put(1),
        Stage::Polling => sheet.put(2),
        Stage::Ending => sheet.put(3),
    }
}
