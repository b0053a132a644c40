//! Statuses.
ghost use Rattle.std.specs.Prelude.{◌≡◌};
ghost use Rattle.plan_codec.specs.Sheets.{behind};
ghost use Rattle.row_codec.specs.Words.{spelled_status};

use crate::of::Of;
use plan_codec::{Readable, Sheet, Status, Unread};
use std::alloc::Global;

impl Readable for Of<Status> {
    ghost use Rattle.row_codec.specs.Words.{spelled_status, IsStatus};
    ghost use Rattle.row_codec.specs.WordLaws.{status_unique};

    ghost spelled = { spelled_status };

    ghost proper = { IsStatus };

    fn read<'a>(_alloc: Global, bytes: &'a [u8]) -> Result<(Of<Status>, &'a [u8]), Unread> {
        match bytes {
            [0, rest @ ..] => Ok((
                Of {
                    thing: Status::Complete,
                },
                rest,
            )),
            [1, rest @ ..] => Ok((
                Of {
                    thing: Status::InProgress,
                },
                rest,
            )),
            [2, rest @ ..] => Ok((
                Of {
                    thing: Status::Failed,
                },
                rest,
            )),
            _ => Err(Unread::Unspelled),
        }
    }

    ghost unique = { status_unique };
}

/// Puts a status.
pub(crate) fn put_status(status: Status, sheet: &mut Sheet)
    ensures { sheet.new ≡ behind sheet.old (spelled_status status) }
{
    match status {
        Status::Complete => sheet.put(0),
        Status::InProgress => sheet.put(1),
        Status::Failed => sheet.put(2),
    }
}
