//! The scripted cloud as a provider.
ghost use Rattle.std.specs.Prelude.{◌≡◌, ◌≢◌, ℕ, List, Some, None};
ghost use Rattle.heat_plan.specs.declared.facts.Facts.{Facts as facts_type};
ghost use Rattle.heat_plan.specs.declared.calls.Request.TheVariants as ask;
ghost use Rattle.provider.specs.declared.alive.Alive.{Alive};
ghost use Rattle.provider.specs.Cloud.{IsAlive};
ghost use Rattle.provider.specs.Changes.{IsAsBefore};
ghost use Rattle.provider.specs.Calls.{MayGo, HasBegun, HasFailed, IsRefused, Waits, IsReady};
ghost use Rattle.provider.specs.Calls.{IsBroken, IsGone, Lingers, Lists, ListsNone};
ghost use Rattle.sim_cloud.specs.Shown.{IsMade, IsMadeAnew, IsSentAway, HasFacts};
ghost use Rattle.sim_cloud.specs.Sound.{lawful_shown};
ghost use Rattle.sim_cloud.specs.Simulated.{beside_of};
ghost use Rattle.scripted_cloud.specs.Scripted.{cloud_of, next_of, FollowsAnswers};
ghost use Rattle.scripted_cloud.specs.ScriptedAnswers.{polls_of, code_of};

use crate::ScriptedCloud;
use crate::scripted_answer::{code_at, course_at, polls_at};
use heat_plan::{Kind, Properties, Token};
use provider::{Answer, Gone, Listed, Poll, Provider};

impl Provider for ScriptedCloud {
    ghost cloud = { cloud_of };

    ghost lawful = { λ c. lawful_shown c.all.held.all (beside_of c.all) c.all.held.fit };

    fn create(&mut self, token: &Token, kind: &Kind, props: &Properties) -> Answer
        ensures follows { FollowsAnswers Answer.Failed Answer.Memory result self.old self.new }
        ensures begun { result ≡ Answer.Begun → HasBegun token.now
            (ask.Create kind.now.name props.now) (cloud_of self.old) (cloud_of self.new) }
        ensures made { result ≡ Answer.Begun → IsMade token.now kind.now props.now
            (polls_of (next_of self.old)) (cloud_of self.old) (cloud_of self.new) }
        ensures quota { result ≡ Answer.Quota → IsRefused token.now kind.now.name props.now
            (cloud_of self.old) (cloud_of self.new) }
        ensures failed { result ≡ Answer.Failed → HasFailed token.now
            (ask.Create kind.now.name props.now) (cloud_of self.old) (cloud_of self.new) }
        ensures memory { result ≡ Answer.Memory → IsAsBefore (cloud_of self.old) (cloud_of self.new) }
    {
        let course = course_at(&self.answers, self.next);
        let polls = polls_at(&self.answers, self.next);
        let answer = self.all.create(course, token, kind, props, polls);
        if answer != Answer::Memory {
            self.next = self.next.saturating_add(1);
        }
        answer
    }

    fn update(&mut self, token: &Token, props: &Properties) -> Answer
        requires { IsAlive (cloud_of self.old) token.now }
        ensures follows { FollowsAnswers Answer.Failed Answer.Memory result self.old self.new }
        ensures begun { result ≡ Answer.Begun →
            HasBegun token.now (ask.Update props.now) (cloud_of self.old) (cloud_of self.new) }
        ensures made { result ≡ Answer.Begun → IsMadeAnew token.now props.now
            (polls_of (next_of self.old)) (cloud_of self.old) (cloud_of self.new) }
        ensures quota { result ≢ Answer.Quota }
        ensures failed { result ≡ Answer.Failed →
            HasFailed token.now (ask.Update props.now) (cloud_of self.old) (cloud_of self.new) }
        ensures memory { result ≡ Answer.Memory → IsAsBefore (cloud_of self.old) (cloud_of self.new) }
    {
        let course = course_at(&self.answers, self.next);
        let polls = polls_at(&self.answers, self.next);
        let answer = self.all.update(course, token, props, polls);
        if answer != Answer::Memory {
            self.next = self.next.saturating_add(1);
        }
        answer
    }

    fn delete(&mut self, token: &Token) -> Answer
        ensures follows { FollowsAnswers Answer.Failed Answer.Memory result self.old self.new }
        ensures begun { result ≡ Answer.Begun →
            HasBegun token.now ask.Delete (cloud_of self.old) (cloud_of self.new) }
        ensures made { result ≡ Answer.Begun → IsSentAway token.now
            (polls_of (next_of self.old)) (cloud_of self.old) (cloud_of self.new) }
        ensures quota { result ≢ Answer.Quota }
        ensures failed { result ≡ Answer.Failed →
            HasFailed token.now ask.Delete (cloud_of self.old) (cloud_of self.new) }
        ensures memory { result ≡ Answer.Memory → IsAsBefore (cloud_of self.old) (cloud_of self.new) }
    {
        let course = course_at(&self.answers, self.next);
        let polls = polls_at(&self.answers, self.next);
        let answer = self.all.delete(course, token, polls);
        if answer != Answer::Memory {
            self.next = self.next.saturating_add(1);
        }
        answer
    }

    fn poll(&mut self, token: &Token) -> Poll
        requires { IsAlive (cloud_of self.old) token.now }
        ensures follows { FollowsAnswers Poll.Failed Poll.Memory result self.old self.new }
        ensures not_yet { result ≡ Poll.NotYet →
            Waits token.now (cloud_of self.old) (cloud_of self.new) }
        ensures ready { (facts : facts_type) → result ≡ Poll.Ready facts →
            IsReady token.now facts (cloud_of self.old) (cloud_of self.new) }
        ensures broken { (code : List ℕ) → result ≡ Poll.Broken code →
            IsBroken token.now code (cloud_of self.old) (cloud_of self.new) }
        ensures due { result ≢ Poll.NotYet → result ≢ Poll.Failed → result ≢ Poll.Memory →
            (cloud_of self.old).left token.now ≡ 0 }
        ensures had { (facts : facts_type) → result ≡ Poll.Ready facts →
            HasFacts (cloud_of self.old) token.now facts }
        ensures code { (code : List ℕ) → result ≡ Poll.Broken code →
            code_of (next_of self.old) ≡ Some code }
        ensures whole { (facts : facts_type) → result ≡ Poll.Ready facts →
            code_of (next_of self.old) ≡ None }
        ensures failed { result ≡ Poll.Failed →
            HasFailed token.now ask.Poll (cloud_of self.old) (cloud_of self.new) }
        ensures memory { result ≡ Poll.Memory → IsAsBefore (cloud_of self.old) (cloud_of self.new) }
    {
        let course = course_at(&self.answers, self.next);
        let code = code_at(&self.answers, self.next);
        let answer = self.all.poll(course, token, code);
        if !matches!(answer, Poll::Memory) {
            self.next = self.next.saturating_add(1);
        }
        answer
    }

    fn gone(&mut self, token: &Token) -> Gone
        requires { MayGo (cloud_of self.old) token.now }
        ensures follows { FollowsAnswers Gone.Failed Gone.Memory result self.old self.new }
        ensures gone { result ≡ Gone.Gone → IsGone token.now (cloud_of self.old) (cloud_of self.new) }
        ensures due { result ≡ Gone.Gone → (cloud_of self.old).left token.now ≡ 0 }
        ensures not_yet { result ≡ Gone.NotYet →
            Lingers token.now (cloud_of self.old) (cloud_of self.new) }
        ensures failed { result ≡ Gone.Failed →
            HasFailed token.now ask.Gone (cloud_of self.old) (cloud_of self.new) }
        ensures memory { result ≡ Gone.Memory → IsAsBefore (cloud_of self.old) (cloud_of self.new) }
    {
        let course = course_at(&self.answers, self.next);
        let answer = self.all.gone(course, token);
        if answer != Gone::Memory {
            self.next = self.next.saturating_add(1);
        }
        answer
    }

    fn list(&mut self) -> Listed
        ensures follows { FollowsAnswers Listed.Failed Listed.Memory result self.old self.new }
        ensures got { (all : List Alive) → result ≡ Listed.Got all →
            Lists all (cloud_of self.old) (cloud_of self.new) }
        ensures failed { result ≡ Listed.Failed → ListsNone (cloud_of self.old) (cloud_of self.new) }
        ensures memory { result ≡ Listed.Memory → IsAsBefore (cloud_of self.old) (cloud_of self.new) }
    {
        let course = course_at(&self.answers, self.next);
        let answer = self.all.list(course);
        if !matches!(answer, Listed::Memory) {
            self.next = self.next.saturating_add(1);
        }
        answer
    }
}
