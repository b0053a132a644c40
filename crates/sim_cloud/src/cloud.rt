//! The simulated cloud as a provider. Its own clauses say how each call goes by the settings, the ids and
//! the attributes that it gives, that a resource keeps them from its create on, that a second request
//! changes nothing, and that NotYet comes exactly where polls are left.
ghost use Rattle.std.specs.Prelude.{◌≡◌, ◌≢◌, ℕ, List, None, Some};
ghost use Rattle.heat_plan.specs.declared.facts.Facts.{Facts as facts_type};
ghost use Rattle.heat_plan.specs.declared.calls.Request.TheVariants as ask;
ghost use Rattle.provider.specs.declared.alive.Alive.{Alive};
ghost use Rattle.provider.specs.Cloud.{IsAlive};
ghost use Rattle.provider.specs.Changes.{IsAsBefore, Stays};
ghost use Rattle.provider.specs.Calls.{MayGo, HasBegun, HasFailed, IsRefused, Waits, IsReady};
ghost use Rattle.provider.specs.Calls.{IsBroken, IsGone, Lingers, Lists, ListsNone};
ghost use Rattle.sim_cloud.specs.declared.course.Course.{Course};
ghost use Rattle.sim_cloud.specs.Shown.{IsMade, IsMadeLate, IsMadeAnew, IsMadeAnewLate};
ghost use Rattle.sim_cloud.specs.Shown.{IsSentAway, IsSentAwayLate, HasFacts};
ghost use Rattle.sim_cloud.specs.Sound.{lawful_shown};
ghost use Rattle.sim_cloud.specs.Simulated.{beside_of, cloud_of, course_of, delay_of, delay_at, code_at, Follows};

use crate::SimCloud;
use heat_plan::{Kind, Properties, Token};
use provider::{Answer, Gone, Listed, Poll, Provider};

impl Provider for SimCloud {
    ghost cloud = { cloud_of };

    ghost lawful = { λ c. lawful_shown c.all.held.all (beside_of c.all) c.all.held.fit };

    fn create(&mut self, token: &Token, kind: &Kind, props: &Properties) -> Answer
        ensures follows { Follows Answer.Failed Answer.Memory result self.old self.new }
        ensures made { result ≡ Answer.Begun → IsMade token.now kind.now props.now
            (delay_of self.old kind.now.name) (cloud_of self.old) (cloud_of self.new) }
        ensures begun { result ≡ Answer.Begun → HasBegun token.now
            (ask.Create kind.now.name props.now) (cloud_of self.old) (cloud_of self.new) }
        ensures quota { result ≡ Answer.Quota → IsRefused token.now kind.now.name props.now
            (cloud_of self.old) (cloud_of self.new) }
        ensures failed { result ≡ Answer.Failed → HasFailed token.now
            (ask.Create kind.now.name props.now) (cloud_of self.old) (cloud_of self.new) }
        ensures idle { result ≡ Answer.Failed → course_of self.old ≡ Course.Fails →
            Stays (cloud_of self.old) (cloud_of self.new) }
        ensures late { result ≡ Answer.Failed → course_of self.old ≡ Course.FailsLate →
            IsMadeLate token.now kind.now props.now (delay_of self.old kind.now.name)
            (cloud_of self.old) (cloud_of self.new) }
        ensures memory { result ≡ Answer.Memory → IsAsBefore (cloud_of self.old) (cloud_of self.new) }
    {
        let course = self.course();
        let polls = self.conduct.delay(&kind.name);
        self.all.create(course, token, kind, props, polls)
    }

    fn update(&mut self, token: &Token, props: &Properties) -> Answer
        requires { IsAlive (cloud_of self.old) token.now }
        ensures follows { Follows Answer.Failed Answer.Memory result self.old self.new }
        ensures made { result ≡ Answer.Begun → IsMadeAnew token.now props.now
            (delay_at self.old token.now) (cloud_of self.old) (cloud_of self.new) }
        ensures begun { result ≡ Answer.Begun →
            HasBegun token.now (ask.Update props.now) (cloud_of self.old) (cloud_of self.new) }
        ensures quota { result ≢ Answer.Quota }
        ensures failed { result ≡ Answer.Failed →
            HasFailed token.now (ask.Update props.now) (cloud_of self.old) (cloud_of self.new) }
        ensures idle { result ≡ Answer.Failed → course_of self.old ≡ Course.Fails →
            Stays (cloud_of self.old) (cloud_of self.new) }
        ensures late { result ≡ Answer.Failed → course_of self.old ≡ Course.FailsLate →
            IsMadeAnewLate token.now props.now (delay_at self.old token.now)
            (cloud_of self.old) (cloud_of self.new) }
        ensures memory { result ≡ Answer.Memory → IsAsBefore (cloud_of self.old) (cloud_of self.new) }
    {
        let course = self.course();
        let polls = self.delay(token);
        self.all.update(course, token, props, polls)
    }

    fn delete(&mut self, token: &Token) -> Answer
        ensures follows { Follows Answer.Failed Answer.Memory result self.old self.new }
        ensures made { result ≡ Answer.Begun → IsSentAway token.now (delay_at self.old token.now)
            (cloud_of self.old) (cloud_of self.new) }
        ensures begun { result ≡ Answer.Begun →
            HasBegun token.now ask.Delete (cloud_of self.old) (cloud_of self.new) }
        ensures quota { result ≢ Answer.Quota }
        ensures failed { result ≡ Answer.Failed →
            HasFailed token.now ask.Delete (cloud_of self.old) (cloud_of self.new) }
        ensures idle { result ≡ Answer.Failed → course_of self.old ≡ Course.Fails →
            Stays (cloud_of self.old) (cloud_of self.new) }
        ensures late { result ≡ Answer.Failed → course_of self.old ≡ Course.FailsLate →
            IsSentAwayLate token.now (delay_at self.old token.now)
            (cloud_of self.old) (cloud_of self.new) }
        ensures memory { result ≡ Answer.Memory → IsAsBefore (cloud_of self.old) (cloud_of self.new) }
    {
        let course = self.course();
        let polls = self.delay(token);
        self.all.delete(course, token, polls)
    }

    fn poll(&mut self, token: &Token) -> Poll
        requires { IsAlive (cloud_of self.old) token.now }
        ensures follows { Follows Poll.Failed Poll.Memory result self.old self.new }
        ensures not_yet { result ≡ Poll.NotYet →
            Waits token.now (cloud_of self.old) (cloud_of self.new) }
        ensures ready { (facts : facts_type) → result ≡ Poll.Ready facts →
            IsReady token.now facts (cloud_of self.old) (cloud_of self.new) }
        ensures broken { (code : List ℕ) → result ≡ Poll.Broken code →
            IsBroken token.now code (cloud_of self.old) (cloud_of self.new) }
        ensures due { result ≢ Poll.NotYet → result ≢ Poll.Failed → result ≢ Poll.Memory →
            (cloud_of self.old).left token.now ≡ 0 }
        ensures had { (facts : facts_type) → result ≡ Poll.Ready facts →
            HasFacts (cloud_of self.old) token.now facts }
        ensures code { (code : List ℕ) → result ≡ Poll.Broken code →
            code_at self.old token.now ≡ Some code }
        ensures whole { (facts : facts_type) → result ≡ Poll.Ready facts →
            code_at self.old token.now ≡ None }
        ensures failed { result ≡ Poll.Failed →
            HasFailed token.now ask.Poll (cloud_of self.old) (cloud_of self.new) }
        ensures memory { result ≡ Poll.Memory → IsAsBefore (cloud_of self.old) (cloud_of self.new) }
    {
        let course = self.course();
        let code = self.conduct.code(token.name.as_str());
        self.all.poll(course, token, code)
    }

    fn gone(&mut self, token: &Token) -> Gone
        requires { MayGo (cloud_of self.old) token.now }
        ensures follows { Follows Gone.Failed Gone.Memory result self.old self.new }
        ensures gone { result ≡ Gone.Gone → IsGone token.now (cloud_of self.old) (cloud_of self.new) }
        ensures due { result ≡ Gone.Gone → (cloud_of self.old).left token.now ≡ 0 }
        ensures not_yet { result ≡ Gone.NotYet →
            Lingers token.now (cloud_of self.old) (cloud_of self.new) }
        ensures failed { result ≡ Gone.Failed →
            HasFailed token.now ask.Gone (cloud_of self.old) (cloud_of self.new) }
        ensures memory { result ≡ Gone.Memory → IsAsBefore (cloud_of self.old) (cloud_of self.new) }
    {
        let course = self.course();
        self.all.gone(course, token)
    }

    fn list(&mut self) -> Listed
        ensures follows { Follows Listed.Failed Listed.Memory result self.old self.new }
        ensures got { (all : List Alive) → result ≡ Listed.Got all →
            Lists all (cloud_of self.old) (cloud_of self.new) }
        ensures failed { result ≡ Listed.Failed → ListsNone (cloud_of self.old) (cloud_of self.new) }
        ensures memory { result ≡ Listed.Memory → IsAsBefore (cloud_of self.old) (cloud_of self.new) }
    {
        let course = self.course();
        self.all.list(course)
    }
}
