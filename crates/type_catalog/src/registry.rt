//! All that a program registers.
ghost use Rattle.std.specs.Prelude.{◌≡◌, ◌&&◌, [], map, option_map, is_some, IfSome, true};
ghost use Rattle.type_catalog.specs.Changes.{ChangeOf};
ghost use Rattle.type_catalog.specs.Names.{are_few as the_are_few};
ghost use Rattle.type_catalog.specs.Registries.{kind_name, kind_named, test_named};

use crate::naming::{are_few, named};
use crate::{Custom, Effect, Judge, KindDef, change_of};
use heat_plan::{HasName, Kind, Properties};
use heat_value::{Seq, Text};
use std::alloc::Global;

impl HasName for KindDef {
    ghost name_of = { kind_name };

    fn name(&self) -> &Text {
        &self.name
    }
}

impl HasName for Judge {
    ghost name_of = { λ j. j.kind.name };

    fn name(&self) -> &Text {
        &self.kind.name
    }
}

impl HasName for Custom {
    ghost name_of = { λ c. c.test.name };

    fn name(&self) -> &Text {
        &self.test.name
    }
}

/// At most 16 judges and at most 16 tests, each sort with names of its own.
#[derive(Drop)]
pub struct Registry {
    pub judges: Seq<Judge>,
    pub customs: Seq<Custom>,
    ghost few_judges: { the_are_few (map (λ j. j.kind.name) judges) ≡ true },
    ghost few_customs: { the_are_few (map (λ c. c.test.name) customs) ≡ true },
}

impl Registry {
    /// Nothing is registered. It takes no memory.
    pub fn empty(alloc: Global) -> Registry
        ensures judges { result.judges ≡ [] }
        ensures customs { result.customs ≡ [] }
    {
        Registry {
            judges: Seq::new(alloc),
            customs: Seq::new(alloc),
        }
    }

    /// The registry of these; none exactly where there are more than 16 of a sort, or a name twice in it.
    pub fn new(judges: Seq<Judge>, customs: Seq<Custom>) -> Option<Registry>
        ensures exact { is_some result
            ≡ (the_are_few (map (λ j. j.kind.name) judges) && the_are_few (map (λ c. c.test.name) customs)) }
        ensures judges { IfSome result (λ r. r.judges ≡ judges) }
        ensures customs { IfSome result (λ r. r.customs ≡ customs) }
    {
        if are_few(judges.as_slice()) && are_few(customs.as_slice()) {
            Some(Registry { judges, customs })
        } else {
            None
        }
    }

    /// The judge of the kind of this name.
    pub fn judge(&self, name: &Text) -> Option<&Judge>
        ensures { option_map (λ j. j.now.kind) result
            ≡ kind_named name.now (map (λ j. j.kind) self.now.judges) }
    {
        named(self.judges.as_slice(), name)
    }

    /// What a change of a resource of this kind asks for. The judge of the kind's name is asked where the
    /// same properties change in place for him; a kind may come from anyone.
    pub fn change(&self, kind: &Kind, old: &Properties, new: &Properties) -> Effect
        ensures { ChangeOf kind.now.soft old.now new.now result }
    {
        if let Some(judge) = self.judge(&kind.name) {
            if judge.kind.has_softs(kind.soft.as_slice()) {
                return judge.change(old, new);
            }
        }
        change_of(kind.soft.as_slice(), old, new)
    }

    /// The test of this name.
    pub fn custom(&self, name: &Text) -> Option<&Custom>
        ensures { option_map (λ c. c.now.test) result
            ≡ test_named name.now (map (λ c. c.test) self.now.customs) }
    {
        named(self.customs.as_slice(), name)
    }
}
