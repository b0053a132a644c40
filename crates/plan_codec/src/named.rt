//! Outputs, conditions and files: a name, and what it has.
use crate::coding::{Readable, Writable};
use crate::sheet::Sheet;
use crate::unread::Unread;
use heat_plan::{Condition, Expression, File, Output};
use heat_value::Text;
use std::alloc::Global;

impl Readable for Output {
    ghost use Rattle.plan_codec.specs.Plans.{spelled_output, IsProperOutput};
    ghost use Rattle.plan_codec.specs.PlanLaws.{output_unique};

    ghost spelled = { spelled_output };

    ghost proper = { IsProperOutput };

    fn read<'a>(alloc: Global, bytes: &'a [u8]) -> Result<(Output, &'a [u8]), Unread> {
        let (parts, rest) = <(Text, Expression)>::read(alloc, bytes)?;
        let (name, value) = parts;
        Ok((Output { name, value }, rest))
    }

    ghost unique = { output_unique };
}

impl Writable for Output {
    #[tactic(auto, using(crate::proofs::Sheets::puts), unfolding(crate::specs::Plans::spelled_output))]
    fn put(&self, sheet: &mut Sheet) {
        self.name.put(sheet);
        self.value.put(sheet);
    }
}

impl Readable for Condition {
    ghost use Rattle.plan_codec.specs.Plans.{spelled_condition, IsProperCondition};
    ghost use Rattle.plan_codec.specs.PlanLaws.{condition_unique};

    ghost spelled = { spelled_condition };

    ghost proper = { IsProperCondition };

    fn read<'a>(alloc: Global, bytes: &'a [u8]) -> Result<(Condition, &'a [u8]), Unread> {
        let (parts, rest) = <(Text, bool)>::read(alloc, bytes)?;
        let (name, value) = parts;
        Ok((Condition { name, value }, rest))
    }

    ghost unique = { condition_unique };
}

impl Writable for Condition {
    #[tactic(auto, using(crate::proofs::Sheets::puts), unfolding(crate::specs::Plans::spelled_condition))]
    fn put(&self, sheet: &mut Sheet) {
        self.name.put(sheet);
        self.value.put(sheet);
    }
}

impl Readable for File {
    ghost use Rattle.plan_codec.specs.Plans.{spelled_file, IsProperFile};
    ghost use Rattle.plan_codec.specs.PlanLaws.{file_unique};

    ghost spelled = { spelled_file };

    ghost proper = { IsProperFile };

    fn read<'a>(alloc: Global, bytes: &'a [u8]) -> Result<(File, &'a [u8]), Unread> {
        let (parts, rest) = <(Text, Text)>::read(alloc, bytes)?;
        let (name, content) = parts;
        Ok((File { name, content }, rest))
    }

    ghost unique = { file_unique };
}

impl Writable for File {
    #[tactic(auto, using(crate::proofs::Sheets::puts), unfolding(crate::specs::Plans::spelled_file))]
    fn put(&self, sheet: &mut Sheet) {
        self.name.put(sheet);
        self.content.put(sheet);
    }
}
