//! Next numbers, each by itself.
ghost use Rattle.std.specs.Prelude.{◌≡◌, ◌↔◌, IsTrue};
ghost use Rattle.plan_codec.specs.Numbers.{spelled_number};
ghost use Rattle.plan_codec.specs.Sheets.{behind};
ghost use Rattle.row_codec.specs.Words.{IsNext};

use crate::of::Of;
use core_state::Next;
use plan_codec::{Readable, Sheet, Unread, WORN, put_number};
use std::alloc::Global;

// Whether it may be a next number: from 1 to 2^62.
fn is_next(number: u64) -> bool
    ensures { IsTrue result ↔ IsNext number }
{
    number >= 1 && number <= WORN
}

impl Readable for Of<Next> {
    ghost use Rattle.plan_codec.specs.Numbers.{spelled_number};
    ghost use Rattle.row_codec.specs.Words.{IsNext};
    ghost use Rattle.row_codec.specs.WordLaws.{next_unique};

    ghost spelled = { spelled_number };

    ghost proper = { IsNext };

    fn read<'a>(alloc: Global, bytes: &'a [u8]) -> Result<(Of<Next>, &'a [u8]), Unread> {
        let (number, rest) = u64::read(alloc, bytes)?;
        if !is_next(number) {
            return Err(Unread::Unspelled);
        }
        let next = Next::first().after(number - 1);
        Ok((Of { thing: next }, rest))
    }

    ghost unique = { next_unique };
}

/// Puts a next number.
pub(crate) fn put_next(next: Next, sheet: &mut Sheet)
    ensures bytes { sheet.new ≡ behind sheet.old (spelled_number next) }
    ensures proper { IsNext next }
{
    put_number(next.get(), sheet);
}
