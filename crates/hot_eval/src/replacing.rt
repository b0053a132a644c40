//! The templates that a repeat replaces: what they cost, and where their faults stand.
ghost use Rattle.std.specs.Prelude.{◌≡◌, ◌≤◌, ◌-◌, ◌^◌, ℕ, IfOk, min};
ghost use Rattle.heat_value.specs.Data.{Data};
ghost use Rattle.heat_value.specs.Meaning.{data_of};
ghost use Rattle.hot_eval.specs.Answers.{IsOutcome};
ghost use Rattle.eval_words.specs.Evaluation.{choice_cost as the_choice_cost, counted, in_repeat};
ghost use Rattle.eval_words.specs.Fillings.{filled, filled_size};
ghost use Rattle.eval_words.specs.Outcomes.{Outcome, cost_limit, seen_from};
ghost use Rattle.hot_eval.specs.Repeats.{choice_of, IsChoice};

use crate::choices::Choice;
use crate::fillings::{Filled, Room, at_literal_place, fill};
use crate::sum::Sum;
use crate::{EvalFault, FaultCode};
use heat_value::{Text, Value};
use hot_strings::value_size;
use std::alloc::Global;

/// The replaced template, once it is counted: F07 where its keys and texts take more than is left, F05
/// where two keys of an object become one.
pub fn replaced_template(
    alloc: Global,
    template: &Value,
    choice: &Choice,
    sum: &mut Sum,
) -> Result<Value, EvalFault>
    requires { IsChoice choice.now }
    ensures outcome { IsOutcome data_of result sum.new (counted (choice_of choice.now) (data_of template.now)
        (filled (choice_of choice.now) (data_of template.now)) sum.old) }
    ensures made { IfOk result (λ _. filled_size (choice_of choice.now) (data_of template.now) ≤ cost_limit) }
{
    match fill(alloc, choice, template, &mut Room::new(sum.left()))? {
        Filled::Template(replaced) => {
            sum.charge(alloc, choice_cost(template, &replaced))?;
            Ok(replaced)
        }
        Filled::Same => Err(EvalFault::here(alloc, FaultCode::F05)),
        Filled::Large => Err(EvalFault::here(alloc, FaultCode::F07)),
    }
}

// What a choice costs: the greatest of 64, the literal template's size and the replaced one's, as far as
// a `usize` counts.
fn choice_cost(template: &Value, replaced: &Value) -> usize
    ensures { result ≡ min (the_choice_cost (data_of template.now) (data_of replaced.now)) (2 ^ 64 - 1) }
{
    64usize.max(value_size(template).max(value_size(replaced)))
}

/// What a replaced template comes to, seen from the object of its repeat.
pub fn in_template(
    alloc: Global,
    template: &Value,
    choice: &Choice,
    made: Result<Value, EvalFault>,
) -> Result<Value, EvalFault>
    requires choice { IsChoice choice.now }
    requires made { filled_size (choice_of choice.now) (data_of template.now) ≤ cost_limit }
    ensures { (o : Outcome Data) (sum : ℕ) → IsOutcome data_of made sum o
        → IsOutcome data_of result sum (seen_from (in_repeat (choice_of choice.now) (data_of template.now)) o) }
{
    match made {
        Ok(made) => Ok(made),
        Err(fault) => {
            let fault = at_literal_place(alloc, choice, template, fault);
            let fault = fault.under_key(&Text::from_str(alloc, "template")?);
            Err(fault.under_key(&Text::from_str(alloc, "repeat")?))
        }
    }
}
