//! What items need, their policies, and things that are found by their names.
use crate::coding::{Readable, Writable};
use crate::lists::put_items;
use crate::sheet::Sheet;
use crate::unread::Unread;
use heat_plan::{ByName, HasName, Needs, Policy, ResName, is_rising};
use heat_value::Seq;
use std::alloc::Global;

impl Readable for Needs {
    ghost use Rattle.plan_codec.specs.Numbers.{spelled_bytes};
    ghost use Rattle.plan_codec.specs.Parts.{spelled_list};
    ghost use Rattle.plan_codec.specs.Plans.{IsProperNeeds};
    ghost use Rattle.plan_codec.specs.PlanLaws.{needs_unique};

    ghost spelled = { spelled_list spelled_bytes };

    ghost proper = { IsProperNeeds };

    fn read<'a>(alloc: Global, bytes: &'a [u8]) -> Result<(Needs, &'a [u8]), Unread> {
        let (names, rest) = Seq::<ResName>::read(alloc, bytes)?;
        if !is_rising(names.as_slice()) {
            return Err(Unread::Unspelled);
        }
        Ok((Needs::from_rising(names), rest))
    }

    ghost unique = { needs_unique };
}

impl Writable for Needs {
    fn put(&self, sheet: &mut Sheet) {
        put_items(self.as_slice(), sheet);
    }
}

impl Readable for Policy {
    ghost use Rattle.plan_codec.specs.Plans.{spelled_policy, IsPolicy};
    ghost use Rattle.plan_codec.specs.PlanLaws.{policy_unique};

    ghost spelled = { spelled_policy };

    ghost proper = { IsPolicy };

    fn read<'a>(_alloc: Global, bytes: &'a [u8]) -> Result<(Policy, &'a [u8]), Unread> {
        match bytes {
            [0, rest @ ..] => Ok((Policy::Delete, rest)),
            [1, rest @ ..] => Ok((Policy::Retain, rest)),
            _ => Err(Unread::Unspelled),
        }
    }

    ghost unique = { policy_unique };
}

impl Writable for Policy {
    fn put(&self, sheet: &mut Sheet) {
        match self {
            Policy::Delete => sheet.put(0),
            Policy::Retain => sheet.put(1),
        }
    }
}

impl<T: HasName + Readable> Readable for ByName<T> {
    ghost use Rattle.plan_codec.specs.Parts.{spelled_list, AreAll};
    ghost use Rattle.plan_codec.specs.Laws.{list_unique};

    ghost spelled = { spelled_list T.spelled };

    ghost proper = { AreAll T.proper };

    fn read<'a>(alloc: Global, bytes: &'a [u8]) -> Result<(ByName<T>, &'a [u8]), Unread> {
        let (list, rest) = Seq::<T>::read(alloc, bytes)?;
        Ok((ByName::from_list(list), rest))
    }

    ghost unique = { list_unique T.unique };
}

impl<T: HasName + Writable> Writable for ByName<T> {
    fn put(&self, sheet: &mut Sheet) {
        put_items(self.as_slice(), sheet);
    }
}
