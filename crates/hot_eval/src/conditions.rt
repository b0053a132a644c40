//! The value of a condition expression.
ghost use Rattle.std.specs.Prelude.{◌≡◌, IfOk};
ghost use Rattle.heat_value.specs.Meaning.{data_of};
ghost use Rattle.hot_eval.specs.Answers.{again, levels};
ghost use Rattle.eval_words.specs.Conditions.{flag_of as the_flag_of, in_conditions};
ghost use Rattle.eval_words.specs.Evaluation.{evaluation};
ghost use Rattle.eval_words.specs.Outcomes.{max_levels};
ghost use Rattle.eval_words.specs.ValuedConds.{valued_data};
ghost use Rattle.eval_words.specs.Scenes.{scene_data};

use crate::depth::Depth;
use crate::evaluation::condition;
use crate::looked::Looked;
use crate::setting::Setting;
use crate::sorts::flag_in;
use crate::sum::Sum;
use crate::{EvalFault, Scene, ValuedConds};
use heat_value::{Props, Value};
use std::alloc::{AllocError, Global};

/// What trying a condition expression tells: its flag, if it gives one; else the place of the condition
/// that was missed first, if one was, without whose value it gives none.
#[derive(Clone, Copy, Debug)]
pub struct Tried {
    pub flag: Option<bool>,
    pub missed: Option<usize>,
}

/// The flag that a condition expression gives, from no cost on, where these parameters are bound and
/// these conditions have values; none where it is at fault. No file and no resource counts as there.
pub fn flag_of(
    alloc: Global,
    given: &Value,
    params: &Props,
    known: ValuedConds,
) -> Result<Option<bool>, AllocError>
    ensures { IfOk result (λ o. o ≡ the_flag_of params.now (valued_data known.entry) (data_of given.now)) }
{
    Ok(flag_or_missed(alloc, given, params, known)?.flag)
}

/// The same, and what was missed.
pub fn flag_or_missed(
    alloc: Global,
    given: &Value,
    params: &Props,
    known: ValuedConds,
) -> Result<Tried, AllocError>
    ensures { IfOk result (λ t. t.flag ≡ the_flag_of params.now (valued_data known.entry) (data_of given.now)) }
{
    let mut sum = Sum::new();
    match condition(
        &setting(alloc, params, known),
        given,
        &mut sum,
        &mut Looked::unasked(),
    ) {
        Ok(made) => Ok(Tried {
            flag: flag_in(&made),
            missed: sum.missed(),
        }),
        Err(EvalFault::Wrong(_, _)) => Ok(Tried {
            flag: None,
            missed: sum.missed(),
        }),
        Err(EvalFault::Memory) => Err(AllocError),
    }
}

// Where parameters and conditions alone are there.
fn setting<'a>(alloc: Global, params: &'a Props, known: ValuedConds<'a>) -> Setting<'a>
    ensures scene { scene_data result.scene ≡ in_conditions params.now (valued_data known.entry) }
    ensures again { again result ≡ evaluation (in_conditions params.now (valued_data known.entry)) }
    ensures levels { levels result ≡ max_levels }
{
    let scene = Scene {
        params,
        conds: known,
        files: None,
        facts: &[],
        absent: &[],
    };
    Setting {
        alloc,
        scene,
        depth: Depth::root(),
    }
}
