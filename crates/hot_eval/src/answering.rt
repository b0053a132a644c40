//! What functions answer once their arguments are evaluated, and what that costs.
ghost use Rattle.std.specs.Prelude.{◌≡◌, Result, IfOk};
ghost use Rattle.heat_value.specs.Data.{Data};
ghost use Rattle.heat_value.specs.Meaning.{data_of};
ghost use Rattle.hot_eval.specs.Answers.{IsOutcome, IsAnswer, IsOwnAnswer};
ghost use Rattle.eval_words.specs.Evaluation.{own_answer as the_own_answer};
ghost use Rattle.eval_words.specs.Functions.{only_flag as the_only_flag};
ghost use Rattle.eval_words.specs.Lookups.{named_condition as the_named_condition, parameter as the_parameter};
ghost use Rattle.eval_words.specs.Outcomes.{answered as the_answered, charged, size, is_result as the_is_result};
ghost use Rattle.eval_words.specs.Scenes.{scene_data};
ghost use Rattle.eval_words.specs.declared.code.FaultCode.{FaultCode as code_type};

use crate::functions::{branch, conjoined, disjoined, negated, only_flag};
use crate::lists::{contains, equals, filter, list_concat, list_concat_unique};
use crate::lookups::{attribute, file, parameter, resource};
use crate::maps::{map_merge, map_replace};
use crate::sum::Sum;
use crate::texts::{digest, list_join, str_replace, str_split};
use crate::{EvalFault, FaultCode, Function, FunctionFault, Scene};
use heat_value::{MAX_DEPTH, Text, TryCopy, Value};
use hot_strings::{fits, value_size};
use std::alloc::{AllocError, Global};

/// The answer of a function that evaluates nothing more; none for a repeat.
pub fn own_answer(
    alloc: Global,
    scene: &Scene,
    function: Function,
    given: &Value,
) -> Option<Result<Value, FunctionFault>>
    ensures { IsOwnAnswer result (the_own_answer (scene_data scene.now) function (data_of given.now)) }
{
    match function {
        Function::Parameter => Some(parameter(alloc, scene, given)),
        Function::Resource => Some(resource(scene, given)),
        Function::Attribute => Some(attribute(alloc, scene, given)),
        Function::File => Some(file(scene, given)),
        Function::Join => Some(list_join(alloc, given)),
        Function::Split => Some(str_split(alloc, given)),
        Function::Replace => Some(str_replace(alloc, false, given)),
        Function::ReplaceStrictly => Some(str_replace(alloc, true, given)),
        Function::Digest => Some(digest(alloc, given)),
        Function::MergeMaps => Some(map_merge(alloc, given)),
        Function::ReplaceInMap => Some(map_replace(alloc, given)),
        Function::Concat => Some(list_concat(alloc, given)),
        Function::ConcatUnique => Some(list_concat_unique(alloc, given)),
        Function::Filter => Some(filter(alloc, given)),
        Function::Contains => Some(contains(given)),
        Function::If => Some(branch(given)),
        Function::FlagParameter => Some(flag_parameter(alloc, scene, given)),
        Function::Equals => Some(equals(given)),
        Function::Not => Some(negated(given)),
        Function::And => Some(conjoined(given)),
        Function::Or => Some(disjoined(given)),
        Function::Repeat => None,
    }
}

// get_param as a condition.
fn flag_parameter(alloc: Global, scene: &Scene, given: &Value) -> Result<Value, FunctionFault>
    ensures { IsAnswer result (the_only_flag (the_parameter (scene_data scene.now) (data_of given.now))) }
{
    only_flag(parameter(alloc, scene, given)?)
}

/// Its own fault; F06 where the result is too large; and then the result's size is added.
pub fn answered(
    alloc: Global,
    answer: Result<Value, FunctionFault>,
    sum: &mut Sum,
) -> Result<Value, EvalFault>
    ensures { (r : Result Data code_type) → IsAnswer answer r → IsOutcome data_of result sum.new (the_answered r sum.old) }
{
    match answer {
        Ok(made) => {
            if !is_result(&made) {
                return Err(EvalFault::here(alloc, FaultCode::F06));
            }
            charge(alloc, &made, sum)?;
            Ok(made)
        }
        Err(fault) => Err(EvalFault::of_function(alloc, fault)),
    }
}

// Whether it has the size and the depth that results may have.
fn is_result(made: &Value) -> bool
    ensures { result ≡ the_is_result (data_of made.now) }
{
    fits(made) && made.is_within(MAX_DEPTH)
}

/// Adds the size of a value.
pub fn charge(alloc: Global, made: &Value, sum: &mut Sum) -> Result<(), EvalFault>
    ensures { IsOutcome (λ u. u) result sum.new (charged tt (size (data_of made.now)) sum.old) }
{
    sum.charge(alloc, value_size(made))
}

/// The value of the condition of that name; the text as written where there is none, which is noted.
pub fn named_condition(scene: &Scene, name: &Text, sum: &mut Sum) -> Result<Value, AllocError>
    ensures value { IfOk result (λ v. data_of v ≡ the_named_condition (scene_data scene.now) name.now) }
    ensures same { sum.new ≡ sum.old }
{
    match scene.condition_named(name) {
        Some(flag) => Ok(Value::Flag(flag)),
        None => {
            sum.miss(scene.conds.place_of(name));
            Ok(Value::Words(name.copy()?))
        }
    }
}
