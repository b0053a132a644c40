//! Plans: their parts in order, of which items and absent names have to fit together.
use crate::coding::{Readable, Writable};
use crate::lists::put_items;
use crate::sheet::Sheet;
use crate::unread::Unread;
use heat_plan::{ByName, Condition, File, Item, Output, Parameters, Plan, ResName};
use heat_value::Seq;
use plan_checks::is_plan;
use std::alloc::Global;

// Conditions, files and absent names.
type Ends = (ByName<Condition>, (ByName<File>, Seq<ResName>));

// Items, outputs, parameters, and the rest.
type Parts = (Seq<Item>, (Seq<Output>, (Parameters, Ends)));

impl Readable for Plan {
    ghost use Rattle.plan_codec.specs.Plans.{spelled_plan, IsProperPlan};
    ghost use Rattle.plan_codec.specs.PlanLaws.{plan_unique};

    ghost spelled = { spelled_plan };

    ghost proper = { IsProperPlan };

    fn read<'a>(alloc: Global, bytes: &'a [u8]) -> Result<(Plan, &'a [u8]), Unread> {
        let (parts, rest) = Parts::read(alloc, bytes)?;
        let (items, (outputs, (params, (conds, (files, absent))))) = parts;
        if !is_plan(alloc, items.as_slice(), absent.as_slice())? {
            return Err(Unread::Unspelled);
        }
        let plan = Plan::new(items, outputs, params, conds, files, absent);
        Ok((plan, rest))
    }

    ghost unique = { plan_unique };
}

impl Writable for Plan {
    #[tactic(auto, using(crate::proofs::Sheets::puts), unfolding(crate::specs::Plans::spelled_plan))]
    fn put(&self, sheet: &mut Sheet) {
        put_items(self.items(), sheet);
        put_items(self.outputs(), sheet);
        self.params().put(sheet);
        self.conds().put(sheet);
        self.files().put(sheet);
        put_items(self.absent(), sheet);
    }
}
