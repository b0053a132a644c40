//! The scripted keeper: a script, the place in it, and what it shows.
ghost use Rattle.std.specs.Prelude.{◌≡◌, ◌≤◌, ◌+◌, ◌-◌, ◌^◌, min, false, true, slice_get, unwrap_or};
ghost use Rattle.scripted_keeper.specs.declared.kept_answer.KeptAnswer.TheVariants.{Works};
ghost use Rattle.heat_value.specs.Counts.{Rose};

use crate::kept_answer::KeptAnswer;
use heat_value::Seq;

/// A keeper whose openings, appends, readings and compactions take one scripted answer each.
#[derive(Debug)]
pub struct ScriptedKeeper {
    pub(crate) answers: Seq<KeptAnswer>,
    pub(crate) next: usize,
    pub(crate) faults: u64,
    pub(crate) going: bool,
    pub(crate) grows: bool,
    pub(crate) long: bool,
    pub(crate) aged: bool,
}

impl Drop for ScriptedKeeper {
    fn drop(self) {
        let ScriptedKeeper {
            answers: _,
            next: _,
            faults: _,
            going: _,
            grows: _,
            long: _,
            aged: _,
        } = self;
    }
}

impl ScriptedKeeper {
    /// A keeper whose calls follow these answers, and work once they are used up.
    pub fn new(answers: Seq<KeptAnswer>) -> ScriptedKeeper
        ensures answers { result.answers ≡ answers }
        ensures next { result.next ≡ 0 }
        ensures faults { result.faults ≡ 0 }
        ensures closed { result.going ≡ false }
        ensures short { result.grows ≡ false }
        ensures young { result.aged ≡ false }
    {
        ScriptedKeeper {
            answers,
            next: 0,
            faults: 0,
            going: false,
            grows: false,
            long: false,
            aged: false,
        }
    }

    /// The same, which is long behind each append until it is compacted.
    pub fn growing(answers: Seq<KeptAnswer>) -> ScriptedKeeper
        ensures answers { result.answers ≡ answers }
        ensures next { result.next ≡ 0 }
        ensures grows { result.grows ≡ true }
    {
        let mut keeper = ScriptedKeeper::new(answers);
        keeper.grows = true;
        keeper
    }

    /// The same, which is old until it is compacted.
    pub fn old(answers: Seq<KeptAnswer>) -> ScriptedKeeper
        ensures answers { result.answers ≡ answers }
        ensures next { result.next ≡ 0 }
        ensures aged { result.aged ≡ true }
    {
        let mut keeper = ScriptedKeeper::new(answers);
        keeper.aged = true;
        keeper
    }

    /// Takes the next answer.
    pub(crate) fn take(&mut self) -> KeptAnswer
        ensures answer { result ≡ unwrap_or (slice_get self.old.answers self.old.next) Works }
        ensures next { self.new ≡ record self.old { next = min (self.old.next + 1) (2 ^ 64 - 1) } }
    {
        let answer = match self.answers.as_slice().get(self.next) {
            Some(answer) => *answer,
            None => KeptAnswer::Works,
        };
        self.next = self.next.saturating_add(1);
        answer
    }

    /// It goes on no more, and its count of faults rises.
    pub(crate) fn fail(&mut self)
        ensures closed { self.new.going ≡ false }
        ensures later { self.old.faults ≤ self.new.faults }
        ensures rose { Rose self.old.faults self.new.faults }
    {
        self.going = false;
        self.faults = self.faults.saturating_add(1);
    }
}
