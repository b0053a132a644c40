//! Polls, questions whether a resource is gone, and listings of an inventory. They have no effect that
//! could be late: each course but Works fails with nothing done.
ghost use Rattle.std.specs.Prelude.{◌≡◌, ◌≢◌, ◌⊎◌, ◌<◌, ℕ, List, option_map, true, None, Some, IfOk};
ghost use Rattle.std.specs.Prelude.{OnOk, OnErr, IsTrue, IsFalse, slice_get, ◌+◌, ◌-◌, ◌^◌, min};
ghost use Rattle.heat_plan.specs.declared.facts.Facts.{Facts as facts_type};
ghost use Rattle.heat_plan.specs.declared.calls.Request.TheVariants as ask;
ghost use Rattle.provider.specs.declared.alive.Alive.{Alive as alive_type};
ghost use Rattle.provider.specs.Cloud.{IsAlive};
ghost use Rattle.provider.specs.Changes.{IsAsBefore};
ghost use Rattle.provider.specs.Calls.{MayGo, HasFailed, Waits, IsReady, IsBroken, IsGone, Lingers, Lists, ListsNone};
ghost use Rattle.sim_cloud.specs.Holding.{place_of, whats};
ghost use Rattle.sim_cloud.specs.Shown.{CountsFault, HasFacts, IsUnready};
ghost use Rattle.sim_cloud.specs.Simulated.{shown_by};
ghost use Rattle.sim_cloud.specs.declared.held.Held.{Held as held_type};

use crate::course::Course;
use crate::held::Held;
use crate::inventory::{Inventory, note};
use heat_plan::{Answered, Facts, Request, Token};
use heat_value::{Seq, Text, TryCopy};
use provider::{Alive, Gone, Listed, Listing, Poll, Traced};
use std::alloc::{AllocError, Global};

impl Inventory {
    /// Whether an alive resource is ready. Where no polls are left it is Broken if a code is given.
    pub fn poll(&mut self, course: Course, token: &Token, code: Option<&Text>) -> Poll
        requires { IsAlive (shown_by self.old) token.now }
        ensures not_yet { result ≡ Poll.NotYet →
            Waits token.now (shown_by self.old) (shown_by self.new) }
        ensures ready { (facts : facts_type) → result ≡ Poll.Ready facts →
            IsReady token.now facts (shown_by self.old) (shown_by self.new) }
        ensures broken { (code : List ℕ) → result ≡ Poll.Broken code →
            IsBroken token.now code (shown_by self.old) (shown_by self.new) }
        ensures due { result ≢ Poll.NotYet → result ≢ Poll.Failed → result ≢ Poll.Memory →
            (shown_by self.old).left token.now ≡ 0 }
        ensures had { (facts : facts_type) → result ≡ Poll.Ready facts →
            HasFacts (shown_by self.old) token.now facts }
        ensures code { (text : List ℕ) → result ≡ Poll.Broken text →
            option_map (λ c. c.now) code.entry ≡ Some text }
        ensures whole { (facts : facts_type) → result ≡ Poll.Ready facts → code.entry ≡ None }
        ensures failed { result ≡ Poll.Failed →
            HasFailed token.now ask.Poll (shown_by self.old) (shown_by self.new) }
        ensures works { course ≡ Course.Works → result ≢ Poll.Failed }
        ensures fails { course ≢ Course.Works → (result ≡ Poll.Failed) ⊎ (result ≡ Poll.Memory) }
        ensures memory { result ≡ Poll.Memory → IsAsBefore (shown_by self.old) (shown_by self.new) }
        ensures count { CountsFault Poll.Failed result self.old.faults self.new.faults }
    {
        match course {
            Course::Works => self.poll_now(token, code),
            Course::Fails | Course::FailsLate => match self.fail(token, Request::Poll) {
                Ok(()) => Poll::Failed,
                Err(_) => Poll::Memory,
            },
        }
    }

    // A poll that works.
    fn poll_now(&mut self, token: &Token, code: Option<&Text>) -> Poll
        requires { IsAlive (shown_by self.old) token.now }
        ensures not_yet { result ≡ Poll.NotYet →
            Waits token.now (shown_by self.old) (shown_by self.new) }
        ensures ready { (facts : facts_type) → result ≡ Poll.Ready facts →
            IsReady token.now facts (shown_by self.old) (shown_by self.new) }
        ensures broken { (code : List ℕ) → result ≡ Poll.Broken code →
            IsBroken token.now code (shown_by self.old) (shown_by self.new) }
        ensures due { result ≢ Poll.NotYet → result ≢ Poll.Failed → result ≢ Poll.Memory →
            (shown_by self.old).left token.now ≡ 0 }
        ensures had { (facts : facts_type) → result ≡ Poll.Ready facts →
            HasFacts (shown_by self.old) token.now facts }
        ensures code { (text : List ℕ) → result ≡ Poll.Broken text →
            option_map (λ c. c.now) code.entry ≡ Some text }
        ensures whole { (facts : facts_type) → result ≡ Poll.Ready facts → code.entry ≡ None }
        ensures works { result ≢ Poll.Failed }
        ensures memory { result ≡ Poll.Memory → IsAsBefore (shown_by self.old) (shown_by self.new) }
        ensures faults { self.new.faults ≡ self.old.faults }
    {
        match self.held.place_of(token) {
            None => unreachable!(),
            Some(at) => {
                if self.held.get(at).left > 0 {
                    match self.wait_at(at, token) {
                        Ok(()) => Poll::NotYet,
                        Err(_) => Poll::Memory,
                    }
                } else {
                    self.poll_due(at, token, code)
                }
            }
        }
    }

    // A poll of the resource at this place, which has no polls left.
    fn poll_due(&mut self, at: usize, token: &Token, code: Option<&Text>) -> Poll
        requires { place_of self.old.held.all token.now ≡ Some at }
        ensures not_yet { result ≢ Poll.NotYet }
        ensures ready { (facts : facts_type) → result ≡ Poll.Ready facts →
            IsReady token.now facts (shown_by self.old) (shown_by self.new) }
        ensures broken { (code : List ℕ) → result ≡ Poll.Broken code →
            IsBroken token.now code (shown_by self.old) (shown_by self.new) }
        ensures had { (facts : facts_type) → result ≡ Poll.Ready facts →
            HasFacts (shown_by self.old) token.now facts }
        ensures code { (text : List ℕ) → result ≡ Poll.Broken text →
            option_map (λ c. c.now) code.entry ≡ Some text }
        ensures whole { (facts : facts_type) → result ≡ Poll.Ready facts → code.entry ≡ None }
        ensures works { result ≢ Poll.Failed }
        ensures memory { result ≡ Poll.Memory → IsAsBefore (shown_by self.old) (shown_by self.new) }
        ensures faults { self.new.faults ≡ self.old.faults }
    {
        match code {
            None => match self.ready_at(at, token) {
                Ok(facts) => Poll::Ready(facts),
                Err(_) => Poll::Memory,
            },
            Some(code) => match self.break_with(token, code) {
                Ok(code) => Poll::Broken(code),
                Err(_) => Poll::Memory,
            },
        }
    }

    // Answers NotYet.
    fn wait_at(&mut self, at: usize, token: &Token) -> Result<(), AllocError>
        requires { place_of self.old.held.all token.now ≡ Some at }
        ensures ok { (h : held_type) → slice_get self.old.held.all at ≡ Some h → 0 < h.left →
            OnOk result (Waits token.now (shown_by self.old) (shown_by self.new)) }
        ensures memory { OnErr result (IsAsBefore (shown_by self.old) (shown_by self.new)) }
        ensures faults { self.new.faults ≡ self.old.faults }
    {
        note(&mut self.trace, token, Request::Poll, Answered::NotYet)?;
        self.held.lower(at);
        Ok(())
    }

    // Answers Ready with the facts that the resource has.
    fn ready_at(&mut self, at: usize, token: &Token) -> Result<Facts, AllocError>
        requires { place_of self.old.held.all token.now ≡ Some at }
        ensures ok { IfOk result (λ f.
            IsReady token.now f (shown_by self.old) (shown_by self.new)) }
        ensures had { IfOk result (λ f. HasFacts (shown_by self.old) token.now f) }
        ensures memory { OnErr result (IsAsBefore (shown_by self.old) (shown_by self.new)) }
        ensures faults { self.new.faults ≡ self.old.faults }
    {
        let facts = self.held.get(at).what.facts.copy()?;
        self.tell_at(at, token, facts)
    }

    // Answers Ready with these facts.
    fn tell_at(&mut self, at: usize, token: &Token, facts: Facts) -> Result<Facts, AllocError>
        requires at { place_of self.old.held.all token.now ≡ Some at }
        requires steady { (h : held_type) → slice_get self.old.held.all at ≡ Some h →
            h.what.ready ≡ true → h.what.facts ≡ facts }
        ensures ok { OnOk result (IsReady token.now facts (shown_by self.old) (shown_by self.new)) }
        ensures same { IfOk result (λ f. f ≡ facts) }
        ensures memory { OnErr result (IsAsBefore (shown_by self.old) (shown_by self.new)) }
        ensures faults { self.new.faults ≡ self.old.faults }
    {
        let kept = facts.copy()?;
        note(
            &mut self.trace,
            token,
            Request::Poll,
            Answered::Ready(facts.copy()?),
        )?;
        self.held.mark_ready(at, kept);
        Ok(facts)
    }

    /// Answers Ready for a resource that isn't ready, whatever polls are left. The facts told are the
    /// resource's from then on, and no polls are left.
    pub fn tell(&mut self, token: &Token, facts: Facts) -> Poll
        requires { IsUnready (shown_by self.old) token.now }
        ensures ready { result ≢ Poll.Memory →
            IsReady token.now facts (shown_by self.old) (shown_by self.new) }
        ensures only { (result ≡ Poll.Ready facts) ⊎ (result ≡ Poll.Memory) }
        ensures memory { result ≡ Poll.Memory → IsAsBefore (shown_by self.old) (shown_by self.new) }
    {
        match self.held.place_of(token) {
            None => unreachable!(),
            Some(at) => match self.tell_at(at, token, facts) {
                Ok(facts) => Poll::Ready(facts),
                Err(_) => Poll::Memory,
            },
        }
    }

    // Answers Broken.
    fn break_with(&mut self, token: &Token, code: &Text) -> Result<Text, AllocError>
        ensures code { IfOk result (λ c. c ≡ code.now) }
        ensures ok { OnOk result (IsBroken token.now code.now (shown_by self.old) (shown_by self.new)) }
        ensures memory { OnErr result (IsAsBefore (shown_by self.old) (shown_by self.new)) }
        ensures faults { self.new.faults ≡ self.old.faults }
    {
        let told = code.copy()?;
        note(
            &mut self.trace,
            token,
            Request::Poll,
            Answered::Broken(code.copy()?),
        )?;
        Ok(told)
    }

    /// Whether a resource that was sent away is gone.
    pub fn gone(&mut self, course: Course, token: &Token) -> Gone
        requires { MayGo (shown_by self.old) token.now }
        ensures gone { result ≡ Gone.Gone → IsGone token.now (shown_by self.old) (shown_by self.new) }
        ensures due { result ≡ Gone.Gone → (shown_by self.old).left token.now ≡ 0 }
        ensures not_yet { result ≡ Gone.NotYet →
            Lingers token.now (shown_by self.old) (shown_by self.new) }
        ensures failed { result ≡ Gone.Failed →
            HasFailed token.now ask.Gone (shown_by self.old) (shown_by self.new) }
        ensures works { course ≡ Course.Works → result ≢ Gone.Failed }
        ensures fails { course ≢ Course.Works → (result ≡ Gone.Failed) ⊎ (result ≡ Gone.Memory) }
        ensures memory { result ≡ Gone.Memory → IsAsBefore (shown_by self.old) (shown_by self.new) }
        ensures count { CountsFault Gone.Failed result self.old.faults self.new.faults }
    {
        match course {
            Course::Works => match self.gone_now(token) {
                Ok(true) => Gone::Gone,
                Ok(false) => Gone::NotYet,
                Err(_) => Gone::Memory,
            },
            Course::Fails | Course::FailsLate => match self.fail(token, Request::Gone) {
                Ok(()) => Gone::Failed,
                Err(_) => Gone::Memory,
            },
        }
    }

    // Whether it is gone.
    fn gone_now(&mut self, token: &Token) -> Result<bool, AllocError>
        requires { MayGo (shown_by self.old) token.now }
        ensures gone { IfOk result (λ b. IsTrue b →
            IsGone token.now (shown_by self.old) (shown_by self.new)) }
        ensures due { IfOk result (λ b. IsTrue b → (shown_by self.old).left token.now ≡ 0) }
        ensures not_yet { IfOk result (λ b. IsFalse b →
            Lingers token.now (shown_by self.old) (shown_by self.new)) }
        ensures memory { OnErr result (IsAsBefore (shown_by self.old) (shown_by self.new)) }
        ensures faults { self.new.faults ≡ self.old.faults }
    {
        match self.held.place_of(token) {
            None => {
                note(&mut self.trace, token, Request::Gone, Answered::Gone)?;
                Ok(true)
            }
            Some(at) => {
                if self.held.get(at).left > 0 {
                    self.linger_at(at, token)?;
                    Ok(false)
                } else {
                    self.let_go_at(at, token)?;
                    Ok(true)
                }
            }
        }
    }

    // Answers NotYet.
    fn linger_at(&mut self, at: usize, token: &Token) -> Result<(), AllocError>
        requires { place_of self.old.held.all token.now ≡ Some at }
        ensures ok { (h : held_type) → slice_get self.old.held.all at ≡ Some h → 0 < h.left →
            h.leaving ≡ true →
            OnOk result (Lingers token.now (shown_by self.old) (shown_by self.new)) }
        ensures memory { OnErr result (IsAsBefore (shown_by self.old) (shown_by self.new)) }
        ensures faults { self.new.faults ≡ self.old.faults }
    {
        note(&mut self.trace, token, Request::Gone, Answered::NotYet)?;
        self.held.lower(at);
        Ok(())
    }

    // Answers Gone.
    fn let_go_at(&mut self, at: usize, token: &Token) -> Result<(), AllocError>
        requires { place_of self.old.held.all token.now ≡ Some at }
        ensures ok { (h : held_type) → slice_get self.old.held.all at ≡ Some h → h.leaving ≡ true →
            OnOk result (IsGone token.now (shown_by self.old) (shown_by self.new)) }
        ensures memory { OnErr result (IsAsBefore (shown_by self.old) (shown_by self.new)) }
        ensures faults { self.new.faults ≡ self.old.faults }
    {
        note(&mut self.trace, token, Request::Gone, Answered::Gone)?;
        self.held.let_go(at);
        Ok(())
    }

    /// The alive list.
    pub fn list(&mut self, course: Course) -> Listed
        ensures got { (all : List alive_type) → result ≡ Listed.Got all →
            Lists all (shown_by self.old) (shown_by self.new) }
        ensures failed { result ≡ Listed.Failed → ListsNone (shown_by self.old) (shown_by self.new) }
        ensures works { course ≡ Course.Works → result ≢ Listed.Failed }
        ensures fails { course ≢ Course.Works →
            (result ≡ Listed.Failed) ⊎ (result ≡ Listed.Memory) }
        ensures memory { result ≡ Listed.Memory → IsAsBefore (shown_by self.old) (shown_by self.new) }
        ensures count { CountsFault Listed.Failed result self.old.faults self.new.faults }
    {
        match course {
            Course::Works => match self.list_now() {
                Ok(all) => Listed::Got(all),
                Err(_) => Listed::Memory,
            },
            Course::Fails | Course::FailsLate => match self.fail_list() {
                Ok(()) => Listed::Failed,
                Err(_) => Listed::Memory,
            },
        }
    }

    // A listing that works: all that is alive.
    fn list_now(&mut self) -> Result<Seq<Alive>, AllocError>
        ensures ok { IfOk result (λ all. Lists all (shown_by self.old) (shown_by self.new)) }
        ensures memory { OnErr result (IsAsBefore (shown_by self.old) (shown_by self.new)) }
        ensures faults { self.new.faults ≡ self.old.faults }
    {
        let all = copies(self.trace.allocator(), self.held.all.as_slice())?;
        self.trace.push(Traced::Listed(Listing::Got))?;
        Ok(all)
    }

    // A listing that fails, and is counted.
    fn fail_list(&mut self) -> Result<(), AllocError>
        ensures ok { OnOk result (ListsNone (shown_by self.old) (shown_by self.new)) }
        ensures memory { OnErr result (IsAsBefore (shown_by self.old) (shown_by self.new)) }
        ensures faults { OnOk result (self.new.faults ≡ min (self.old.faults + 1) (2 ^ 64 - 1)) }
    {
        self.trace.push(Traced::Listed(Listing::Failed))?;
        self.count_fault();
        Ok(())
    }
}

// Copies of the resources.
fn copies(alloc: Global, held: &[Held]) -> Result<Seq<Alive>, AllocError>
    ensures { IfOk result (λ all. all ≡ whats held.now) }
{
    let mut all = Seq::new(alloc);
    for one in held {
        all.push(one.what.copy()?)?;
    }
    Ok(all)
}
