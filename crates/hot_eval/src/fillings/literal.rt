//! Where the parts of a replaced template stood in the literal one.
ghost use Rattle.std.specs.Prelude.{◌≡◌, ◌≤◌, IfOk, option_map};
ghost use Rattle.heat_value.specs.Data.{words};
ghost use Rattle.heat_value.specs.Meaning.{data_of, nodes_of, members_of};
ghost use Rattle.heat_value.specs.declared.path.Step.TheVariants.{Index};
ghost use Rattle.eval_words.specs.Faults.{IsSeenFrom};
ghost use Rattle.eval_words.specs.Fillings.{literal_path as the_literal_path, literal_step as the_literal_step};
ghost use Rattle.eval_words.specs.Fillings.{step_in_list, member_becoming as the_member_becoming};
ghost use Rattle.eval_words.specs.Fillings.{filled_size, members_size, text_filled as the_text_filled};
ghost use Rattle.eval_words.specs.Outcomes.{size, cost_limit};
ghost use Rattle.hot_eval.specs.Repeats.{choice_of, IsChoice};

use super::text_filled;
use crate::EvalFault;
use crate::choices::Choice;
use crate::sum::MAX_COST;
use heat_value::{Member, Path, Step, Text, TryCopy, Value};
use std::alloc::{AllocError, Global};

/// The fault of a replaced template, at its place in the literal one: what lies inside an item that
/// replaced a text has the path of that text.
pub fn at_literal_place(
    alloc: Global,
    choice: &Choice,
    template: &Value,
    fault: EvalFault,
) -> EvalFault
    requires choice { IsChoice choice.now }
    requires made { filled_size (choice_of choice.now) (data_of template.now) ≤ cost_limit }
    ensures { IsSeenFrom (the_literal_path (choice_of choice.now) (data_of template.now)) fault result }
{
    match fault {
        EvalFault::Wrong(code, path) => match literal_path(
            alloc,
            choice,
            template,
            path.as_slice(),
        ) {
            Ok(path) => EvalFault::Wrong(code, path),
            Err(_) => EvalFault::Memory,
        },
        EvalFault::Memory => EvalFault::Memory,
    }
}

// The place in the literal template of what stands at this place in the replaced one.
fn literal_path(
    alloc: Global,
    choice: &Choice,
    template: &Value,
    steps: &[Step],
) -> Result<Path, AllocError>
    requires choice { IsChoice choice.now }
    requires made { filled_size (choice_of choice.now) (data_of template.now) ≤ cost_limit }
    ensures { IfOk result (λ p. p ≡ the_literal_path (choice_of choice.now) (data_of template.now) steps.now) }
{
    let mut path = Path::root(alloc);
    let mut at = template;
    for step in steps {
        match literal_step(alloc, choice, at, step)? {
            Some((step, inner)) => {
                path.push(step)?;
                at = inner;
            }
            None => return Ok(path),
        }
    }
    Ok(path)
}

// The step in the literal template, and what stands behind it.
fn literal_step<'a>(
    alloc: Global,
    choice: &Choice,
    template: &'a Value,
    step: &Step,
) -> Result<Option<(Step, &'a Value)>, AllocError>
    requires choice { IsChoice choice.now }
    requires made { filled_size (choice_of choice.now) (data_of template.now) ≤ cost_limit }
    ensures { IfOk result (λ o. option_map (λ p. (p.0, data_of p.1.now)) o
        ≡ the_literal_step (choice_of choice.now) (data_of template.now) step.now) }
{
    match (template, step) {
        (Value::Items(items), Step::Index(at)) => Ok(item_step(items.as_slice(), *at)),
        (Value::Fields(fields), Step::Key(key)) => {
            member_becoming(alloc, choice, key, fields.as_slice())
        }
        _ => Ok(None),
    }
}

// The step to a place of a list.
fn item_step<'a>(values: &'a [Value], at: usize) -> Option<(Step, &'a Value)>
    ensures { option_map (λ p. (p.0, data_of p.1.now)) result
        ≡ step_in_list (nodes_of values.now) (Index at) }
{
    match values.get(at) {
        Some(value) => Some((Step::Index(at), value)),
        None => None,
    }
}

// The step to the member whose key becomes this one.
fn member_becoming<'a>(
    alloc: Global,
    choice: &Choice,
    key: &Text,
    members: &'a [Member],
) -> Result<Option<(Step, &'a Value)>, AllocError>
    requires choice { IsChoice choice.now }
    requires made { members_size (choice_of choice.now) (members_of members.now) ≤ cost_limit }
    ensures { IfOk result (λ o. option_map (λ p. (p.0, data_of p.1.now)) o
        ≡ the_member_becoming (choice_of choice.now) key.now (members_of members.now)) }
{
    for member in members {
        if key_filled(alloc, choice, &member.key)? == *key {
            return Ok(Some((Step::Key(member.key.copy()?), &member.value)));
        }
    }
    Ok(None)
}

// An object's key with keys replaced, of a template that was made.
fn key_filled(alloc: Global, choice: &Choice, key: &Text) -> Result<Text, AllocError>
    requires choice { IsChoice choice.now }
    requires made { size (words (the_text_filled (choice_of choice.now) key.now)) ≤ cost_limit }
    ensures { IfOk result (λ t. t ≡ the_text_filled (choice_of choice.now) key.now) }
{
    match text_filled(alloc, choice, key, MAX_COST)? {
        Some(text) => Ok(text),
        None => unreachable!(),
    }
}
