//! What the parts of lists and objects come to, seen from these.
ghost use Rattle.std.specs.Prelude.{ℕ};
ghost use Rattle.heat_value.specs.Data.{Data};
ghost use Rattle.heat_value.specs.Meaning.{data_of};
ghost use Rattle.heat_value.specs.declared.path.Step.TheVariants.{Key, Index};
ghost use Rattle.hot_eval.specs.Answers.{IsOutcome};
ghost use Rattle.eval_words.specs.Outcomes.{Outcome, under};

use crate::EvalFault;
use heat_value::{Text, Value};

/// A part of a list, seen from the list.
pub fn at_place(place: usize, made: Result<Value, EvalFault>) -> Result<Value, EvalFault>
    ensures { (o : Outcome Data) (sum : ℕ) → IsOutcome data_of made sum o
        → IsOutcome data_of result sum (under (Index place) o) }
{
    match made {
        Ok(made) => Ok(made),
        Err(fault) => Err(fault.under_place(place)),
    }
}

/// A part of an object, seen from the object.
pub fn at_key(key: &Text, made: Result<Value, EvalFault>) -> Result<Value, EvalFault>
    ensures { (o : Outcome Data) (sum : ℕ) → IsOutcome data_of made sum o
        → IsOutcome data_of result sum (under (Key key.now) o) }
{
    match made {
        Ok(made) => Ok(made),
        Err(fault) => Err(fault.under_key(key)),
    }
}
