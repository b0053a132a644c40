//! Kinds of resources.
use crate::coding::{Readable, Writable};
use crate::sheet::Sheet;
use crate::unread::Unread;
use heat_plan::Kind;
use heat_value::{Seq, Text};
use std::alloc::Global;

impl Readable for Kind {
    ghost use Rattle.plan_codec.specs.Plans.{spelled_kind, IsProperKind};
    ghost use Rattle.plan_codec.specs.PlanLaws.{kind_unique};

    ghost spelled = { spelled_kind };

    ghost proper = { IsProperKind };

    fn read<'a>(alloc: Global, bytes: &'a [u8]) -> Result<(Kind, &'a [u8]), Unread> {
        let (parts, rest) = <(Text, (Seq<Text>, Seq<Text>))>::read(alloc, bytes)?;
        let (name, (attrs, soft)) = parts;
        Ok((Kind { name, attrs, soft }, rest))
    }

    ghost unique = { kind_unique };
}

impl Writable for Kind {
    #[tactic(auto, using(crate::proofs::Sheets::puts), unfolding(crate::specs::Plans::spelled_kind))]
    fn put(&self, sheet: &mut Sheet) {
        self.name.put(sheet);
        self.attrs.put(sheet);
        self.soft.put(sheet);
    }
}
