//! What the functions of conditions give, and `if`.
ghost use Rattle.std.specs.Prelude.{◌≡◌, Ok, option_map};
ghost use Rattle.std.specs.List.{list_all, list_any};
ghost use Rattle.heat_value.specs.Meaning.{data_of, nodes_of};
ghost use Rattle.hot_eval.specs.Answers.{IsAnswer};
ghost use Rattle.eval_words.specs.Functions.{branch as the_branch, negated as the_negated, only_flag as the_only_flag};
ghost use Rattle.eval_words.specs.Functions.{conjoined as the_conjoined, disjoined as the_disjoined};
ghost use Rattle.eval_words.specs.Functions.{flags_in as the_flags_in};

use crate::FunctionFault;
use crate::sorts::{flag_in, parts, two_of, wanted};
use heat_value::{TryCopy, Value};

/// if: the value of the branch that was chosen; F01 where none was.
pub fn branch(argument: &Value) -> Result<Value, FunctionFault>
    ensures { IsAnswer result (the_branch (data_of argument.now)) }
{
    let (_, chosen) = wanted(two_of(parts(argument)))?;
    Ok(chosen.copy()?)
}

/// not: the other flag.
pub fn negated(argument: &Value) -> Result<Value, FunctionFault>
    ensures { IsAnswer result (the_negated (data_of argument.now)) }
{
    Ok(Value::Flag(!wanted(flag_in(argument))?))
}

/// and: whether each part is true.
pub fn conjoined(argument: &Value) -> Result<Value, FunctionFault>
    ensures { IsAnswer result (the_conjoined (data_of argument.now)) }
{
    let (all, _) = wanted(flags_in(parts(argument)))?;
    Ok(Value::Flag(all))
}

/// or: whether some part is true.
pub fn disjoined(argument: &Value) -> Result<Value, FunctionFault>
    ensures { IsAnswer result (the_disjoined (data_of argument.now)) }
{
    let (_, some) = wanted(flags_in(parts(argument)))?;
    Ok(Value::Flag(some))
}

// Whether all flags are true, and whether some is; none where a value is no flag.
fn flags_in(values: &[Value]) -> Option<(bool, bool)>
    ensures { result ≡ option_map (λ bs. (list_all (λ b. b) bs, list_any (λ b. b) bs))
        (the_flags_in (nodes_of values.now)) }
{
    let mut all = true;
    let mut some = false;
    for value in values {
        match flag_in(value) {
            Some(flag) => {
                all = all && flag;
                some = some || flag;
            }
            None => return None,
        }
    }
    Some((all, some))
}

/// A value that has to be a flag, as get_param's has where a condition stands.
pub fn only_flag(value: Value) -> Result<Value, FunctionFault>
    ensures { IsAnswer result (the_only_flag (Ok (data_of value))) }
{
    wanted(flag_in(&value))?;
    Ok(value)
}
