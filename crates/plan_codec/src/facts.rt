//! What a provider told of a resource.
use crate::coding::{Readable, Writable};
use crate::sheet::Sheet;
use crate::unread::Unread;
use heat_plan::{Facts, Properties};
use heat_value::Text;
use std::alloc::Global;

impl Readable for Facts {
    ghost use Rattle.plan_codec.specs.Plans.{spelled_facts, IsProperFacts};
    ghost use Rattle.plan_codec.specs.PlanLaws.{facts_unique};

    ghost spelled = { spelled_facts };

    ghost proper = { IsProperFacts };

    fn read<'a>(alloc: Global, bytes: &'a [u8]) -> Result<(Facts, &'a [u8]), Unread> {
        let (parts, rest) = <(Text, Properties)>::read(alloc, bytes)?;
        let (id, attrs) = parts;
        Ok((Facts { id, attrs }, rest))
    }

    ghost unique = { facts_unique };
}

impl Writable for Facts {
    #[tactic(auto, using(crate::proofs::Sheets::puts), unfolding(crate::specs::Plans::spelled_facts))]
    fn put(&self, sheet: &mut Sheet) {
        self.id.put(sheet);
        self.attrs.put(sheet);
    }
}
