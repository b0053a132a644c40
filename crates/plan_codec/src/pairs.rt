//! Pairs: the first part, then the second.
use crate::coding::{Readable, Writable};
use crate::sheet::Sheet;
use crate::unread::Unread;
use std::alloc::Global;

impl<A: Readable, B: Readable> Readable for (A, B) {
    ghost use Rattle.plan_codec.specs.Parts.{spelled_pair, AreBoth};
    ghost use Rattle.plan_codec.specs.Laws.{pair_unique};

    ghost spelled = { spelled_pair A.spelled B.spelled };

    ghost proper = { AreBoth A.proper B.proper };

    fn read<'a>(alloc: Global, bytes: &'a [u8]) -> Result<((A, B), &'a [u8]), Unread> {
        let (first, rest) = A::read(alloc, bytes)?;
        let (second, rest) = B::read(alloc, rest)?;
        Ok(((first, second), rest))
    }

    ghost unique = { pair_unique A.unique B.unique };
}

impl<A: Writable, B: Writable> Writable for (A, B) {
    #[tactic(auto, using(crate::proofs::Sheets::puts))]
    fn put(&self, sheet: &mut Sheet) {
        self.0.put(sheet);
        self.1.put(sheet);
    }
}
