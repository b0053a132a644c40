//! Lists: how many things there are, and each in order.
ghost use Rattle.std.specs.Prelude.{◌≡◌, IfOk, IfErr};
ghost use Rattle.plan_codec.specs.Parts.{spelled_list, AreAll};
ghost use Rattle.plan_codec.specs.Sheets.{behind};
ghost use Rattle.plan_codec.specs.Spellings.{Takes, Refuses};

use crate::coding::{Readable, Writable};
use crate::numbers::{number_at, put_number};
use crate::sheet::Sheet;
use crate::unread::Unread;
use heat_value::Seq;
use std::alloc::Global;

/// The things at the front: how many, and each. Nothing is taken for what their number claims: the list
/// grows as things are read.
pub fn items_at<T: Readable>(alloc: Global, bytes: &[u8]) -> Result<(Vec<T>, &[u8]), Unread>
    ensures ok { IfOk result (λ x.
        Takes (spelled_list T.spelled) (AreAll T.proper) bytes.now x.0.items x.1.now) }
    ensures err { IfErr result (Refuses (spelled_list T.spelled) (AreAll T.proper) bytes.now) }
{
    let (count, mut rest) = number_at(bytes)?;
    let mut all = Vec::new(alloc);
    for _ in 0..count {
        let (item, behind) = T::read(alloc, rest)?;
        all.push(item)?;
        rest = behind;
    }
    Ok((all, rest))
}

/// Puts how many things there are, and each of them.
pub fn put_items<T: Writable>(items: &[T], sheet: &mut Sheet)
    ensures bytes { sheet.new ≡ behind sheet.old (spelled_list T.Readable.spelled items.now) }
    ensures proper { AreAll T.Readable.proper items.now }
{
    put_number(items.len() as u64, sheet);
    for item in items {
        item.put(sheet);
    }
}

impl<T: Readable> Readable for Seq<T> {
    ghost use Rattle.plan_codec.specs.Parts.{spelled_list, AreAll};
    ghost use Rattle.plan_codec.specs.Laws.{list_unique};

    ghost spelled = { spelled_list T.spelled };

    ghost proper = { AreAll T.proper };

    fn read<'a>(alloc: Global, bytes: &'a [u8]) -> Result<(Seq<T>, &'a [u8]), Unread> {
        let (items, rest) = items_at(alloc, bytes)?;
        Ok((Seq::from_vec(items), rest))
    }

    ghost unique = { list_unique T.unique };
}

impl<T: Writable> Writable for Seq<T> {
    fn put(&self, sheet: &mut Sheet) {
        put_items(self.as_slice(), sheet);
    }
}
