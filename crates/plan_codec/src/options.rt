//! Options: a byte that says whether something is there, and what is.
use crate::coding::{Readable, Writable};
use crate::sheet::Sheet;
use crate::unread::Unread;
use std::alloc::Global;

impl<T: Readable> Readable for Option<T> {
    ghost use Rattle.plan_codec.specs.Parts.{spelled_option, IsIfSome};
    ghost use Rattle.plan_codec.specs.Laws.{option_unique};

    ghost spelled = { spelled_option T.spelled };

    ghost proper = { IsIfSome T.proper };

    fn read<'a>(alloc: Global, bytes: &'a [u8]) -> Result<(Option<T>, &'a [u8]), Unread> {
        match bytes {
            [0, rest @ ..] => Ok((None, rest)),
            [1, rest @ ..] => {
                let (value, rest) = T::read(alloc, rest)?;
                Ok((Some(value), rest))
            }
            _ => Err(Unread::Unspelled),
        }
    }

    ghost unique = { option_unique T.unique };
}

impl<T: Writable> Writable for Option<T> {
    #[tactic(auto, using(crate::proofs::Sheets::puts))]
    fn put(&self, sheet: &mut Sheet) {
        match self {
            Some(value) => {
                sheet.put(1);
                value.put(sheet);
            }
            None => sheet.put(0),
        }
    }
}
