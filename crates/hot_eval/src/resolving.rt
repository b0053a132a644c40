//! A value, or the properties of an item, with the facts that are known.
ghost use Rattle.std.specs.Prelude.{◌≡◌, ◌≢◌, ◌++◌, ℕ, IfOk, OnOk, Err};
ghost use Rattle.heat_value.specs.Data.{Members, fields};
ghost use Rattle.heat_value.specs.Meaning.{data_of};
ghost use Rattle.hot_eval.specs.Answers.{IsMadeOf, again, levels};
ghost use Rattle.eval_words.specs.Evaluation.{evaluation};
ghost use Rattle.eval_words.specs.Outcomes.{Outcome, Gives, max_levels, seen_from, is_result as the_is_result};
ghost use Rattle.eval_words.specs.Resolutions.{eval as the_eval, resolve as the_resolve};
ghost use Rattle.eval_words.specs.Resolutions.{properties as the_properties, properties_path, unless_large};
ghost use Rattle.eval_words.specs.Reads.{all_reads, reads};
ghost use Rattle.eval_words.specs.Scenes.{scene_of, scene_data};
ghost use Rattle.hot_eval.specs.Noted.{reads_again};

use crate::depth::Depth;
use crate::evaluation::{members, value};
use crate::looked::Looked;
use crate::setting::Setting;
use crate::sum::Sum;
use crate::{EvalFault, FaultCode, Scene};
use heat_plan::{Item, KnownFacts, Plan, Properties, ResName};
use heat_value::{MAX_DEPTH, Props, Text, Value};
use hot_strings::map_fits;
use std::alloc::{AllocError, Global};

/// What a value of a plan comes to, with the facts that are known, or the first fault, whose path begins
/// at the value.
pub fn eval(
    alloc: Global,
    given: &Value,
    plan: &Plan,
    known: &[KnownFacts],
) -> Result<Value, EvalFault>
    ensures { IsMadeOf data_of result (the_eval (scene_of plan.now known.now) (data_of given.now)) }
{
    value(
        &setting(alloc, plan, known),
        given,
        &mut Sum::new(),
        &mut Looked::unasked(),
    )
}

/// The properties of an item of the plan, with the facts that are known, or the first fault, whose path
/// begins at the template.
pub fn resolve(
    alloc: Global,
    plan: &Plan,
    item: &Item,
    known: &[KnownFacts],
) -> Result<Properties, EvalFault>
    ensures { IsMadeOf (λ ms. ms) result (the_resolve plan.now item.now known.now) }
{
    let made = properties(alloc, plan, &item.props, known);
    of_item(alloc, &item.name, made)
}

// Each property, from no cost on; F06 where the whole map is too large.
fn properties(
    alloc: Global,
    plan: &Plan,
    given: &Properties,
    known: &[KnownFacts],
) -> Result<Properties, EvalFault>
    ensures { IsMadeOf (λ ms. ms) result
        (unless_large (the_properties (scene_of plan.now known.now) given.now)) }
{
    let made = members(
        &setting(alloc, plan, known),
        given.as_props(),
        &mut Sum::new(),
        &mut Looked::unasked(),
    );
    large_or(alloc, made?)
}

/// The names of resources that the evaluation of an item's properties looks up with the facts that are
/// known, in order, each as often as it is looked up, up to the first fault.
pub fn looked_up(
    alloc: Global,
    plan: &Plan,
    item: &Item,
    known: &[KnownFacts],
) -> Result<Vec<Text>, AllocError>
    ensures { IfOk result (λ names. names.items ≡ reads plan.now item.now known.now) }
{
    let mut looked = Looked::asked(alloc);
    let made = members(
        &setting(alloc, plan, known),
        item.props.as_props(),
        &mut Sum::new(),
        &mut looked,
    );
    told(made)?;
    match looked.names() {
        Some(names) => Ok(names),
        None => unreachable!(),
    }
}

// Whether there was memory for an evaluation.
fn told(made: Result<Props, EvalFault>) -> Result<(), AllocError>
    ensures { OnOk result (made ≢ Err EvalFault.Memory) }
{
    match made {
        Ok(_) | Err(EvalFault::Wrong(_, _)) => Ok(()),
        Err(EvalFault::Memory) => Err(AllocError),
    }
}

// The map; F06 where it is too large.
fn large_or(alloc: Global, made: Props) -> Result<Properties, EvalFault>
    ensures { (sum : ℕ) → IsMadeOf (λ ms. ms) result (unless_large (Gives made sum)) }
{
    if !is_result(&made) {
        return Err(EvalFault::here(alloc, FaultCode::F06));
    }
    match Properties::from_props(made) {
        Some(props) => Ok(props),
        None => unreachable!(),
    }
}

// Whether a map has the size and the depth that results may have.
fn is_result(made: &Props) -> bool
    ensures { result ≡ the_is_result (fields made.now) }
{
    map_fits(made) && made.are_within(MAX_DEPTH - 1)
}

/// An evaluation's setting at the root of a value.
pub fn setting<'a>(alloc: Global, plan: &'a Plan, known: &'a [KnownFacts]) -> Setting<'a>
    ensures scene { scene_data result.scene ≡ scene_of plan.now known.now }
    ensures again { again result ≡ evaluation (scene_of plan.now known.now) }
    ensures reads { reads_again result ≡ all_reads (scene_of plan.now known.now) }
    ensures levels { levels result ≡ max_levels }
{
    Setting {
        alloc,
        scene: Scene::of_plan(plan, known),
        depth: Depth::root(),
    }
}

// What an item's properties come to, seen from the template's root.
fn of_item(
    alloc: Global,
    name: &ResName,
    made: Result<Properties, EvalFault>,
) -> Result<Properties, EvalFault>
    ensures { (o : Outcome Members) → IsMadeOf (λ ms. ms) made o
        → IsMadeOf (λ ms. ms) result (seen_from (λ p. properties_path name.now ++ p) o) }
{
    match made {
        Ok(props) => Ok(props),
        Err(fault) => {
            let fault = fault.under_key(&Text::from_str(alloc, "properties")?);
            let fault = fault.under_key(&Text::from_str(alloc, name.as_str())?);
            Err(fault.under_key(&Text::from_str(alloc, "resources")?))
        }
    }
}
