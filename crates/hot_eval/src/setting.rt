//! What stays the same throughout an evaluation, but for the depth.
ghost use Rattle.std.specs.Prelude.{◌≡◌, ℕ, suc, [], IfOk, IfErr};
ghost use Rattle.heat_value.specs.Data.{Data};
ghost use Rattle.hot_eval.specs.Answers.{again, levels, inside_again};
ghost use Rattle.hot_eval.specs.Noted.{reads_again, reads_inside_again, value_looks};
ghost use Rattle.eval_words.specs.Evaluation.{value_outcome};
ghost use Rattle.eval_words.specs.Faults.{here};
ghost use Rattle.eval_words.specs.Outcomes.{Faults};
ghost use Rattle.eval_words.specs.Scenes.{scene_data};
ghost use Rattle.eval_words.specs.declared.code.FaultCode.TheVariants.{F07};

use crate::depth::Depth;
use crate::{EvalFault, FaultCode, Scene};
use std::alloc::Global;

/// What is read beside the value itself, and how deep it stands.
#[derive(Clone, Copy)]
pub struct Setting<'a> {
    pub alloc: Global,
    pub scene: Scene<'a>,
    pub depth: Depth,
}

impl<'a> Setting<'a> {
    /// One level further; F07 where no level is left.
    pub fn inside(&self) -> Result<Setting<'a>, EvalFault>
        ensures scene { IfOk result (λ s. scene_data s.scene ≡ scene_data self.now.scene) }
        ensures again { IfOk result (λ s. again s ≡ again self.now) }
        ensures reads { IfOk result (λ s. reads_again s ≡ reads_again self.now) }
        ensures less { IfOk result (λ s. levels self.now ≡ suc (levels s)) }
        ensures err { IfErr result (λ e. (e ≡ here F07) × (levels self.now ≡ 0)) }
    {
        match self.depth.inside() {
            Some(depth) => Ok(Setting {
                alloc: self.alloc,
                scene: self.scene,
                depth,
            }),
            None => Err(EvalFault::here(self.alloc, FaultCode::F07)),
        }
    }

    /// At the root of a replaced template; F07 where no level is left.
    pub fn repeated(&self) -> Result<Setting<'a>, EvalFault>
        ensures again { IfOk result (λ s. (d : Data) (n : ℕ)
            → inside_again self.now d n ≡ value_outcome (again s) (scene_data s.scene) (levels s) d n) }
        ensures reads { IfOk result (λ s. (d : Data) (n : ℕ) → reads_inside_again self.now d n ≡ value_looks s d n) }
        ensures less { IfOk result (λ s. levels self.now ≡ suc (levels s)) }
        ensures err { IfErr result (λ e. (e ≡ here F07)
            × ((d : Data) (n : ℕ) → inside_again self.now d n ≡ Faults F07 [])
            × ((d : Data) (n : ℕ) → reads_inside_again self.now d n ≡ [])) }
    {
        match self.depth.repeated() {
            Some(depth) => Ok(Setting {
                alloc: self.alloc,
                scene: self.scene,
                depth,
            }),
            None => Err(EvalFault::here(self.alloc, FaultCode::F07)),
        }
    }
}
