//! The items of a plan.
use crate::coding::{Readable, Writable};
use crate::sheet::Sheet;
use crate::unread::Unread;
use heat_plan::{Item, Kind, Needs, Policy, Properties, ResName};
use std::alloc::Global;

impl Readable for Item {
    ghost use Rattle.plan_codec.specs.Plans.{spelled_item, IsProperItem};
    ghost use Rattle.plan_codec.specs.PlanLaws.{item_unique};

    ghost spelled = { spelled_item };

    ghost proper = { IsProperItem };

    fn read<'a>(alloc: Global, bytes: &'a [u8]) -> Result<(Item, &'a [u8]), Unread> {
        let (parts, rest) = <(ResName, (Kind, (Properties, (Needs, Policy))))>::read(alloc, bytes)?;
        let (name, (kind, (props, (needs, policy)))) = parts;
        Ok((
            Item {
                name,
                kind,
                props,
                needs,
                policy,
            },
            rest,
        ))
    }

    ghost unique = { item_unique };
}

impl Writable for Item {
    #[tactic(auto, using(crate::proofs::Sheets::puts), unfolding(crate::specs::Plans::spelled_item))]
    fn put(&self, sheet: &mut Sheet) {
        self.name.put(sheet);
        self.kind.put(sheet);
        self.props.put(sheet);
        self.needs.put(sheet);
        self.policy.put(sheet);
    }
}
