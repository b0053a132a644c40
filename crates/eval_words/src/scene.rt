//! What evaluation reads beside the value itself.
ghost use Rattle.std.specs.Prelude.{◌≡◌, option_map};
ghost use Rattle.eval_words.specs.Lookups.{facts_of as the_facts_of, file_named as the_file_named};
ghost use Rattle.eval_words.specs.Lookups.{condition_named as the_condition_named};
ghost use Rattle.eval_words.specs.Scenes.{scene_data, scene_of, is_one_of, facts_told};

use crate::ValuedConds;
use heat_plan::{ByName, Facts, File, KnownFacts, Plan, ResName};
use heat_value::{Props, Text};

/// Parameters and their values, the conditions that have a value, files where there are any, the facts
/// of resources, and the names of absent ones, of which no facts count.
#[derive(Clone, Copy)]
pub struct Scene<'a> {
    pub params: &'a Props,
    pub conds: ValuedConds<'a>,
    pub files: Option<&'a ByName<File>>,
    pub facts: &'a [KnownFacts],
    pub absent: &'a [ResName],
}

impl<'a> Scene<'a> {
    /// What a plan gives to read, with the facts that are known.
    pub fn of_plan(plan: &'a Plan, known: &'a [KnownFacts]) -> Scene<'a>
        ensures { scene_data result ≡ scene_of plan.now known.now }
    {
        Scene {
            params: plan.params().as_props(),
            conds: ValuedConds::All(plan.conds()),
            files: Some(plan.files()),
            facts: known,
            absent: plan.absent(),
        }
    }

    /// The facts of a resource; one without facts counts as absent.
    pub fn facts_of(&self, name: &Text) -> Option<&'a Facts>
        ensures { option_map (λ f. f.now) result ≡ the_facts_of (scene_data self.now) name.now }
    {
        if is_one_of_names(self.absent, name) {
            return None;
        }
        facts_among(self.facts, name)
    }

    /// The text of a file.
    pub fn file_named(&self, name: &Text) -> Option<&'a Text>
        ensures { option_map (λ t. t.now) result ≡ the_file_named (scene_data self.now) name.now }
    {
        match self.files {
            Some(files) => files.content_of(name),
            None => None,
        }
    }

    /// The value of a condition.
    pub fn condition_named(&self, name: &Text) -> Option<bool>
        ensures { result ≡ the_condition_named (scene_data self.now) name.now }
    {
        self.conds.value_of(name)
    }
}

// Whether a name is among these.
fn is_one_of_names(names: &[ResName], name: &Text) -> bool
    ensures { result ≡ is_one_of names.now name.now }
{
    for other in names {
        if name.as_str() == other.as_str() {
            return true;
        }
    }
    false
}

// The facts of a resource among these.
fn facts_among<'a>(facts: &'a [KnownFacts], name: &Text) -> Option<&'a Facts>
    ensures { option_map (λ f. f.now) result ≡ facts_told facts.now name.now }
{
    for known in facts {
        if known.name.as_str() == name.as_str() {
            return Some(&known.facts);
        }
    }
    None
}
