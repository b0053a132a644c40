//! Evaluation: a value with functions in it, part by part, with the sum of costs carried from part to part,
//! and the names that are looked up noted where they are wanted.
ghost use Rattle.std.specs.Prelude.{Bool, Option};
ghost use Rattle.heat_value.specs.Data.{Nodes, fields as fields_data};
ghost use Rattle.heat_value.specs.Meaning.{data_of, nodes_of};
ghost use Rattle.hot_eval.specs.Answers.{IsOutcome, IsPicked, again, levels, inside_again, branch_nodes};
ghost use Rattle.eval_words.specs.Choices.{repetition as the_repetition, choices};
ghost use Rattle.eval_words.specs.Evaluation.{value_outcome, values_outcome, members_outcome, all_but_outcome};
ghost use Rattle.eval_words.specs.Evaluation.{condition_outcome, conditions_outcome, chosen_outcome, branch_outcome};
ghost use Rattle.eval_words.specs.Evaluation.{call as the_call, argument as the_argument, sole_of};
ghost use Rattle.eval_words.specs.Evaluation.{answer_of as the_answer_of, repeated as the_repeated};
ghost use Rattle.eval_words.specs.Evaluation.{choice_outcome, choices_outcome, counted, outcome_unless};
ghost use Rattle.eval_words.specs.Fillings.{filled};
ghost use Rattle.hot_eval.specs.Repeats.{lists_of, AreKeys, choice_of, IsChoice};
ghost use Rattle.eval_words.specs.Looks.{answer_reads, argument_reads, call_reads, choices_reads, reads_behind, repeated_reads};
ghost use Rattle.eval_words.specs.Scenes.{scene_data};
ghost use Rattle.hot_eval.specs.Noted.{IsNoted, IsPickedToRead, reads_inside_again, value_looks, values_looks, members_looks};
ghost use Rattle.hot_eval.specs.Noted.{all_but_looks, looks_unless, chosen_looks, branch_looks, condition_looks};
ghost use Rattle.hot_eval.specs.Noted.{conditions_looks, sole_looks};

use crate::answering::{answered, charge, named_condition, own_answer};
use crate::branches::{Picked, condition_and, pick};
use crate::choices::{Choice, Repetition, choice_at, repetition_in};
use crate::looked::{Looked, name_looked_up};
use crate::names::{condition_function_in, function_in, is_condition_formed, is_formed};
use crate::placing::{at_key, at_place};
use crate::replacing::{in_template, replaced_template};
use crate::setting::Setting;
use crate::sorts::flag_in;
use crate::sum::Sum;
use crate::walk::{first_places, go_on, links_of, stocks_of};
use crate::{EvalFault, FaultCode, Function, Manner};
use heat_value::{Items, Member, Props, TryCopy, Value};

/// Scalars are themselves, lists and objects go part by part, an object with one key may be a function.
#[cycle(evaluation)]
#[tactic(auto, using(crate::proofs::Noting::for_looks))]
pub fn value(
    set: &Setting,
    given: &Value,
    sum: &mut Sum,
    looked: &mut Looked,
) -> Result<Value, EvalFault>
    ensures outcome { IsOutcome data_of result sum.new
        (value_outcome (again set.now) (scene_data set.now.scene) (levels set.now) (data_of given.now) sum.old) }
    ensures looks { IsNoted result looked.old looked.new (value_looks set.now (data_of given.now) sum.old) }
{
    match given {
        Value::Items(items) => Ok(Value::Items(values(
            &set.inside()?,
            items.as_slice(),
            sum,
            looked,
        )?)),
        Value::Fields(fields) => object(set, fields, sum, looked),
        Value::Null | Value::Flag(_) | Value::Whole(_) | Value::Words(_) => Ok(given.copy()?),
    }
}

// The parts of a list.
#[cycle(evaluation)]
#[tactic(auto, using(crate::proofs::Noting::for_looks))]
fn values(
    set: &Setting,
    given: &[Value],
    sum: &mut Sum,
    looked: &mut Looked,
) -> Result<Items, EvalFault>
    ensures outcome { IsOutcome (λ ns. ns) result sum.new
        (values_outcome (again set.now) (scene_data set.now.scene) (levels set.now) 0 (nodes_of given.now) sum.old) }
    ensures looks { IsNoted result looked.old looked.new (values_looks set.now (nodes_of given.now) sum.old) }
{
    let mut items = Items::new(set.alloc);
    for (place, part) in given.iter().enumerate() {
        items.push(at_place(place, value(set, part, sum, looked))?)?;
    }
    Ok(items)
}

/// The parts of an object, which itself is no function.
#[cycle(evaluation)]
#[tactic(auto, using(crate::proofs::Noting::for_looks))]
pub fn members(
    set: &Setting,
    given: &Props,
    sum: &mut Sum,
    looked: &mut Looked,
) -> Result<Props, EvalFault>
    ensures outcome { IsOutcome (λ ms. ms) result sum.new
        (members_outcome (again set.now) (scene_data set.now.scene) (levels set.now) given.now sum.old) }
    ensures looks { IsNoted result looked.old looked.new (members_looks set.now given.now sum.old) }
{
    let mut fields = Props::new(set.alloc);
    for member in given.as_slice() {
        let made = at_key(&member.key, value(set, &member.value, sum, looked))?;
        fields.put(member.key.copy()?, made)?;
    }
    Ok(fields)
}

// An object with one key is the function of values that the key names, if it names one.
#[cycle(evaluation)]
#[tactic(auto, using(crate::proofs::Noting::for_looks))]
fn object(
    set: &Setting,
    given: &Props,
    sum: &mut Sum,
    looked: &mut Looked,
) -> Result<Value, EvalFault>
    ensures outcome { IsOutcome data_of result sum.new
        (value_outcome (again set.now) (scene_data set.now.scene) (levels set.now) (fields_data given.now) sum.old) }
    ensures looks { IsNoted result looked.old looked.new (value_looks set.now (fields_data given.now) sum.old) }
{
    let set = &set.inside()?;
    match function_in(given.as_slice()) {
        Some((member, function)) => call(set, function, is_formed(member), member, sum, looked),
        None => Ok(Value::Fields(members(set, given, sum, looked)?)),
    }
}

// The argument is evaluated and counted, and then the function answers; F01 where it is off its form.
#[cycle(evaluation)]
#[tactic(auto, using(crate::proofs::Noting::for_looks))]
fn call(
    set: &Setting,
    function: Function,
    formed: bool,
    member: &Member,
    sum: &mut Sum,
    looked: &mut Looked,
) -> Result<Value, EvalFault>
    ensures outcome { IsOutcome data_of result sum.new
        (the_call (inside_again set.now) (scene_data set.now.scene) function formed
        (sole_of (again set.now) (scene_data set.now.scene) (levels set.now) member.now.key (data_of member.now.value)) sum.old) }
    ensures looks { IsNoted result looked.old looked.new (call_reads (inside_again set.now) (reads_inside_again set.now) function formed
        (sole_of (again set.now) (scene_data set.now.scene) (levels set.now) member.now.key (data_of member.now.value))
        (sole_looks set.now (data_of member.now.value)) sum.old) }
{
    if !formed {
        return Err(EvalFault::here(set.alloc, FaultCode::F01));
    }
    let made = at_key(
        &member.key,
        argument(set, function.manner(), member, sum, looked),
    )?;
    charge(set.alloc, &made, sum)?;
    answer_of(set, function, &made, sum, looked)
}

// An argument with its parts evaluated in their places, and literal ones as written.
#[cycle(evaluation)]
#[tactic(auto, using(crate::proofs::Noting::for_looks))]
fn argument(
    set: &Setting,
    manner: Manner,
    member: &Member,
    sum: &mut Sum,
    looked: &mut Looked,
) -> Result<Value, EvalFault>
    ensures outcome { IsOutcome data_of result sum.new
        (the_argument manner
        (sole_of (again set.now) (scene_data set.now.scene) (levels set.now) member.now.key (data_of member.now.value)) sum.old) }
    ensures looks { IsNoted result looked.old looked.new (argument_reads manner (sole_looks set.now (data_of member.now.value)) sum.old) }
{
    match (manner, &member.value) {
        (Manner::Each, Value::Items(items)) => {
            Ok(Value::Items(values(set, items.as_slice(), sum, looked)?))
        }
        (Manner::Each, Value::Fields(fields)) => Ok(Value::Fields(members(
            set, fields, sum, looked,
        )?)),
        (Manner::AllButTemplate, Value::Fields(fields)) => {
            Ok(Value::Fields(all_but(set, "template", fields, sum, looked)?))
        }
        (Manner::ChosenBranch, Value::Items(items)) => {
            Ok(Value::Items(chosen(set, items.as_slice(), sum, looked)?))
        }
        (Manner::Condition, given) => condition(set, given, sum, looked),
        (Manner::Conditions, Value::Items(items)) => {
            Ok(Value::Items(conditions(set, items.as_slice(), sum, looked)?))
        }
        (_, given) => Ok(given.copy()?),
    }
}

// The parts of an object but the one under a key.
#[cycle(evaluation)]
#[tactic(auto, using(crate::proofs::Noting::for_looks))]
fn all_but(
    set: &Setting,
    but: &str,
    given: &Props,
    sum: &mut Sum,
    looked: &mut Looked,
) -> Result<Props, EvalFault>
    ensures outcome { IsOutcome (λ ms. ms) result sum.new
        (all_but_outcome (again set.now) (scene_data set.now.scene) (levels set.now) but.now given.now sum.old) }
    ensures looks { IsNoted result looked.old looked.new (all_but_looks set.now but.now given.now sum.old) }
{
    let mut fields = Props::new(set.alloc);
    for member in given.as_slice() {
        let made = unless_key(set, but, member, sum, looked)?;
        fields.put(member.key.copy()?, made)?;
    }
    Ok(fields)
}

// The part under a key, as written where this is the key.
#[cycle(evaluation)]
#[tactic(auto, using(crate::proofs::Noting::for_looks))]
fn unless_key(
    set: &Setting,
    but: &str,
    member: &Member,
    sum: &mut Sum,
    looked: &mut Looked,
) -> Result<Value, EvalFault>
    ensures outcome { IsOutcome data_of result sum.new
        (outcome_unless (again set.now) (scene_data set.now.scene) (levels set.now) but.now member.now.key
        (data_of member.now.value) sum.old) }
    ensures looks { IsNoted result looked.old looked.new (looks_unless set.now but.now member.now.key (data_of member.now.value) sum.old) }
{
    if member.key.as_str() == but {
        return Ok(member.value.copy()?);
    }
    at_key(&member.key, value(set, &member.value, sum, looked))
}

// The condition's value, and behind it that of the branch which it chooses.
#[cycle(evaluation)]
#[tactic(auto, using(crate::proofs::Noting::for_looks))]
fn chosen(
    set: &Setting,
    given: &[Value],
    sum: &mut Sum,
    looked: &mut Looked,
) -> Result<Items, EvalFault>
    ensures outcome { IsOutcome (λ ns. ns) result sum.new
        (chosen_outcome (again set.now) (scene_data set.now.scene) (levels set.now) (nodes_of given.now) sum.old) }
    ensures looks { IsNoted result looked.old looked.new (chosen_looks set.now (nodes_of given.now) sum.old) }
{
    match given {
        [] => Ok(Items::new(set.alloc)),
        [first, branches @ ..] => {
            let made = at_place(0, condition(set, first, sum, looked))?;
            let chosen = branch_value(set, &pick(flag_in(&made), branches), sum, looked)?;
            Ok(condition_and(set.alloc, made, chosen)?)
        }
    }
}

// The value of the branch that was picked.
#[cycle(evaluation)]
#[tactic(auto, using(crate::proofs::Noting::for_looks))]
fn branch_value(
    set: &Setting,
    picked: &Picked,
    sum: &mut Sum,
    looked: &mut Looked,
) -> Result<Option<Value>, EvalFault>
    ensures outcome { (flag : Option Bool) (branches : Nodes) → IsPicked picked.now flag branches
        → IsOutcome branch_nodes result sum.new
        (branch_outcome (again set.now) (scene_data set.now.scene) (levels set.now) flag branches sum.old) }
    ensures looks { (flag : Option Bool) (branches : Nodes) → IsPickedToRead picked.now flag branches
        → IsNoted result looked.old looked.new (branch_looks set.now flag branches sum.old) }
{
    match picked {
        Picked::Branch(place, branch) => Ok(Some(at_place(
            *place,
            value(set, branch, sum, looked),
        )?)),
        Picked::Null => Ok(Some(Value::Null)),
        Picked::None => Ok(None),
    }
}

/// A flag is itself, a text the condition of that name, an object with one key the function of conditions
/// that the key names.
#[cycle(evaluation)]
#[tactic(auto, using(crate::proofs::Noting::for_looks))]
pub fn condition(
    set: &Setting,
    given: &Value,
    sum: &mut Sum,
    looked: &mut Looked,
) -> Result<Value, EvalFault>
    ensures outcome { IsOutcome data_of result sum.new
        (condition_outcome (again set.now) (scene_data set.now.scene) (levels set.now) (data_of given.now) sum.old) }
    ensures looks { IsNoted result looked.old looked.new (condition_looks set.now (data_of given.now) sum.old) }
{
    match given {
        Value::Words(name) => Ok(named_condition(&set.scene, name, sum)?),
        Value::Fields(fields) => condition_object(set, fields, sum, looked),
        Value::Null | Value::Flag(_) | Value::Whole(_) | Value::Items(_) => Ok(given.copy()?),
    }
}

// An object as a condition: what its condition function gives, else the object.
#[cycle(evaluation)]
#[tactic(auto, using(crate::proofs::Noting::for_looks))]
fn condition_object(
    set: &Setting,
    given: &Props,
    sum: &mut Sum,
    looked: &mut Looked,
) -> Result<Value, EvalFault>
    ensures outcome { IsOutcome data_of result sum.new
        (condition_outcome (again set.now) (scene_data set.now.scene) (levels set.now) (fields_data given.now) sum.old) }
    ensures looks { IsNoted result looked.old looked.new (condition_looks set.now (fields_data given.now) sum.old) }
{
    let set = &set.inside()?;
    match condition_function_in(given.as_slice()) {
        Some((member, function)) => {
            call(
                set,
                function,
                is_condition_formed(member),
                member,
                sum,
                looked,
            )
        }
        None => Ok(Value::Fields(given.copy()?)),
    }
}

// Each part as a condition; what is true or false already ends nothing.
#[cycle(evaluation)]
#[tactic(auto, using(crate::proofs::Noting::for_looks))]
fn conditions(
    set: &Setting,
    given: &[Value],
    sum: &mut Sum,
    looked: &mut Looked,
) -> Result<Items, EvalFault>
    ensures outcome { IsOutcome (λ ns. ns) result sum.new
        (conditions_outcome (again set.now) (scene_data set.now.scene) (levels set.now) 0 (nodes_of given.now) sum.old) }
    ensures looks { IsNoted result looked.old looked.new (conditions_looks set.now (nodes_of given.now) sum.old) }
{
    let mut items = Items::new(set.alloc);
    for (place, part) in given.iter().enumerate() {
        items.push(at_place(place, condition(set, part, sum, looked))?)?;
    }
    Ok(items)
}

// What a function answers.
#[cycle(evaluation)]
#[tactic(auto, using(crate::proofs::Noting::for_looks))]
fn answer_of(
    set: &Setting,
    function: Function,
    given: &Value,
    sum: &mut Sum,
    looked: &mut Looked,
) -> Result<Value, EvalFault>
    ensures outcome { IsOutcome data_of result sum.new
        (the_answer_of (inside_again set.now) (scene_data set.now.scene) function (data_of given.now) sum.old) }
    ensures looks { IsNoted result looked.old looked.new (answer_reads (inside_again set.now) (reads_inside_again set.now) function (data_of given.now) sum.old) }
{
    match own_answer(set.alloc, &set.scene, function, given) {
        Some(answer) => {
            looked.note(name_looked_up(function, given))?;
            answered(set.alloc, answer, sum)
        }
        None => repeated(set, given, sum, looked),
    }
}

// A repeat: its own faults come before all choices.
#[cycle(evaluation)]
#[tactic(auto, using(crate::proofs::Noting::for_looks))]
fn repeated(
    set: &Setting,
    given: &Value,
    sum: &mut Sum,
    looked: &mut Looked,
) -> Result<Value, EvalFault>
    ensures outcome { IsOutcome data_of result sum.new
        (the_repeated (inside_again set.now) (the_repetition (data_of given.now)) sum.old) }
    ensures looks { IsNoted result looked.old looked.new (repeated_reads (inside_again set.now) (reads_inside_again set.now) (the_repetition (data_of given.now)) sum.old) }
{
    match repetition_in(set.alloc, given) {
        Ok(repetition) => {
            let items = choice_values(set, &repetition, sum, looked)?;
            answered(set.alloc, Ok(Value::Items(items)), sum)
        }
        Err(fault) => Err(EvalFault::of_function(set.alloc, fault)),
    }
}

// Choice by choice.
#[cycle(evaluation)]
#[tactic(auto, using(crate::proofs::Noting::for_looks))]
fn choice_values(
    set: &Setting,
    repetition: &Repetition,
    sum: &mut Sum,
    looked: &mut Looked,
) -> Result<Items, EvalFault>
    requires { AreKeys (lists_of repetition.now.lists.items) }
    ensures outcome { IsOutcome (λ ns. ns) result sum.new
        (choices_outcome (inside_again set.now) (data_of repetition.now.template.now)
        (choices (lists_of repetition.now.lists.items)) sum.old) }
    ensures looks { IsNoted result looked.old looked.new (choices_reads (inside_again set.now) (reads_inside_again set.now)
        (data_of repetition.now.template.now) (choices (lists_of repetition.now.lists.items)) sum.old) }
{
    let mut items = Items::new(set.alloc);
    let lists = repetition.lists.as_slice();
    let Some(mut places) = first_places(set.alloc, lists)? else {
        return Ok(items);
    };
    let links = links_of(set.alloc, lists)?;
    let mut stocks = stocks_of(set.alloc, lists)?;
    let mut choice = choice_at(set.alloc, lists, &places)?;
    loop {
        items.push(choice_value(set, repetition.template, &choice, sum, looked)?)?;
        if !go_on(
            lists,
            links.as_slice(),
            &mut places,
            &mut stocks,
            &mut choice,
        ) {
            return Ok(items);
        }
    }
}

// F05 where two keys of an object become one; else the replaced template is counted and evaluated.
#[cycle(evaluation)]
#[tactic(auto, using(crate::proofs::Noting::for_looks))]
fn choice_value(
    set: &Setting,
    template: &Value,
    choice: &Choice,
    sum: &mut Sum,
    looked: &mut Looked,
) -> Result<Value, EvalFault>
    requires { IsChoice choice.now }
    ensures outcome { IsOutcome data_of result sum.new
        (choice_outcome (inside_again set.now) (data_of template.now) (choice_of choice.now)
        (filled (choice_of choice.now) (data_of template.now)) sum.old) }
    ensures looks { IsNoted result looked.old looked.new (reads_behind (counted (choice_of choice.now) (data_of template.now)
        (filled (choice_of choice.now) (data_of template.now)) sum.old) (reads_inside_again set.now)) }
{
    let replaced = replaced_template(set.alloc, template, choice, sum)?;
    let made = replaced_value(set, &replaced, sum, looked);
    in_template(set.alloc, template, choice, made)
}

// What a replaced template comes to, one level further.
#[cycle(evaluation)]
#[tactic(auto, using(crate::proofs::Noting::for_looks))]
fn replaced_value(
    set: &Setting,
    given: &Value,
    sum: &mut Sum,
    looked: &mut Looked,
) -> Result<Value, EvalFault>
    ensures outcome { IsOutcome data_of result sum.new (inside_again set.now (data_of given.now) sum.old) }
    ensures looks { IsNoted result looked.old looked.new (reads_inside_again set.now (data_of given.now) sum.old) }
{
    value(&set.repeated()?, given, sum, looked)
}
