//! The running sum of costs, and the condition that was missed first.
ghost use Rattle.std.specs.Prelude.{◌≡◌, ◌≤◌, ◌-◌};
ghost use Rattle.hot_eval.specs.Answers.{IsOutcome};
ghost use Rattle.eval_words.specs.Outcomes.{charged, cost_limit};

use crate::{EvalFault, FaultCode};
use std::alloc::Global;
use std::marker::Model;

/// What one evaluation may cost, in bytes of compact JSON.
pub const MAX_COST: usize = 16_777_216;

/// The sum of costs so far, which doesn't pass `MAX_COST`; beside it, unseen by clauses, the place of the
/// first condition that was looked for and had no value.
#[derive(Debug, Drop)]
pub struct Sum {
    spent: usize,
    missed: Option<usize>,
}

impl Model for Sum {
    ghost use Rattle.std.specs.Prelude.{ℕ, ◌≤◌};
    ghost use Rattle.eval_words.specs.Outcomes.{cost_limit};

    ghost Value = { ℕ };

    ghost view = { λ s. s.spent };

    ghost invariant = { λ s. s.spent ≤ cost_limit };
}

impl Sum {
    /// No cost yet, and nothing missed.
    pub fn new() -> Sum
        ensures { result ≡ 0 }
    {
        Sum {
            spent: 0,
            missed: None,
        }
    }

    /// What was spent.
    pub fn spent(&self) -> usize
        ensures { result ≡ self.now }
    {
        self.spent
    }

    /// What may still be spent.
    pub fn left(&self) -> usize
        ensures left { result ≡ cost_limit - self.now }
        ensures within { self.now ≤ cost_limit }
    {
        MAX_COST - self.spent
    }

    /// Adds a cost; F07 where the sum then passes the limit.
    pub fn charge(&mut self, alloc: Global, cost: usize) -> Result<(), EvalFault>
        ensures { IsOutcome (λ u. u) result self.new (charged tt cost self.old) }
    {
        if self.left() < cost {
            return Err(EvalFault::here(alloc, FaultCode::F07));
        }
        self.spent += cost;
        Ok(())
    }

    /// Notes the place of a condition that has no value, unless one was noted.
    pub fn miss(&mut self, place: Option<usize>)
        ensures { self.new ≡ self.old }
    {
        self.missed = self.missed.or(place);
    }

    /// The place that was noted.
    pub fn missed(&self) -> Option<usize> {
        self.missed
    }
}
