//! A cloud as its users see it: what it shows, its calls, its laws. It is idempotent by token: a request
//! that was made already, begun or failed, may be made again and has no further effect.
ghost use Rattle.std.specs.Prelude.{◌≡◌, ◌≢◌, ℕ, List};
ghost use Rattle.heat_plan.specs.declared.facts.Facts.{Facts as facts_type};
ghost use Rattle.heat_plan.specs.declared.calls.Request.TheVariants as ask;
ghost use Rattle.provider.specs.declared.alive.Alive.{Alive};
ghost use Rattle.provider.specs.Cloud.{Cloud, IsAlive, IsLawful};
ghost use Rattle.provider.specs.Changes.{IsAsBefore};
ghost use Rattle.provider.specs.Calls.{MayGo, HasBegun, HasFailed, IsRefused, Waits, IsReady};
ghost use Rattle.provider.specs.Calls.{IsBroken, IsGone, Lingers, Lists, ListsNone};

use crate::{Answer, Gone, Listed, Poll};
use heat_plan::{Kind, Properties, Token};

/// Has resources by their tokens, and is asked for them.
pub trait Provider {
    /// All that it shows: the alive list, which tokens are leaving, the polls left of each, the trace,
    /// the quotas, and how often it has failed.
    ghost cloud: { Self → Cloud };

    /// Asks for a resource of a kind. One that is alive stays as it is, but may have other polls left.
    fn create(&mut self, token: &Token, kind: &Kind, props: &Properties) -> Answer
        ensures begun { result ≡ Answer.Begun →
            HasBegun token.now (ask.Create kind.now.name props.now) (cloud self.old) (cloud self.new) }
        ensures quota { result ≡ Answer.Quota →
            IsRefused token.now kind.now.name props.now (cloud self.old) (cloud self.new) }
        ensures failed { result ≡ Answer.Failed →
            HasFailed token.now (ask.Create kind.now.name props.now) (cloud self.old) (cloud self.new) }
        ensures memory { result ≡ Answer.Memory → IsAsBefore (cloud self.old) (cloud self.new) };

    /// Asks that an alive resource gets these properties. One that has them may have other polls left.
    fn update(&mut self, token: &Token, props: &Properties) -> Answer
        requires { IsAlive (cloud self.old) token.now }
        ensures begun { result ≡ Answer.Begun →
            HasBegun token.now (ask.Update props.now) (cloud self.old) (cloud self.new) }
        ensures quota { result ≢ Answer.Quota }
        ensures failed { result ≡ Answer.Failed →
            HasFailed token.now (ask.Update props.now) (cloud self.old) (cloud self.new) }
        ensures memory { result ≡ Answer.Memory → IsAsBefore (cloud self.old) (cloud self.new) };

    /// Asks that a resource goes. It stays alive until `gone` has answered that it is.
    fn delete(&mut self, token: &Token) -> Answer
        ensures begun { result ≡ Answer.Begun →
            HasBegun token.now ask.Delete (cloud self.old) (cloud self.new) }
        ensures quota { result ≢ Answer.Quota }
        ensures failed { result ≡ Answer.Failed →
            HasFailed token.now ask.Delete (cloud self.old) (cloud self.new) }
        ensures memory { result ≡ Answer.Memory → IsAsBefore (cloud self.old) (cloud self.new) };

    /// Whether an alive resource is ready, and with which facts, which it keeps until an update to other
    /// properties. NotYet comes only where polls are left. One that is leaving answers as any other.
    fn poll(&mut self, token: &Token) -> Poll
        requires { IsAlive (cloud self.old) token.now }
        ensures not_yet { result ≡ Poll.NotYet → Waits token.now (cloud self.old) (cloud self.new) }
        ensures ready { (facts : facts_type) → result ≡ Poll.Ready facts →
            IsReady token.now facts (cloud self.old) (cloud self.new) }
        ensures broken { (code : List ℕ) → result ≡ Poll.Broken code →
            IsBroken token.now code (cloud self.old) (cloud self.new) }
        ensures failed { result ≡ Poll.Failed →
            HasFailed token.now ask.Poll (cloud self.old) (cloud self.new) }
        ensures memory { result ≡ Poll.Memory → IsAsBefore (cloud self.old) (cloud self.new) };

    /// Whether a resource that was sent away is gone. NotYet comes only where polls are left.
    fn gone(&mut self, token: &Token) -> Gone
        requires { MayGo (cloud self.old) token.now }
        ensures gone { result ≡ Gone.Gone → IsGone token.now (cloud self.old) (cloud self.new) }
        ensures not_yet { result ≡ Gone.NotYet →
            Lingers token.now (cloud self.old) (cloud self.new) }
        ensures failed { result ≡ Gone.Failed →
            HasFailed token.now ask.Gone (cloud self.old) (cloud self.new) }
        ensures memory { result ≡ Gone.Memory → IsAsBefore (cloud self.old) (cloud self.new) };

    /// The alive list.
    fn list(&mut self) -> Listed
        ensures got { (all : List Alive) → result ≡ Listed.Got all →
            Lists all (cloud self.old) (cloud self.new) }
        ensures failed { result ≡ Listed.Failed → ListsNone (cloud self.old) (cloud self.new) }
        ensures memory { result ≡ Listed.Memory → IsAsBefore (cloud self.old) (cloud self.new) };

    /// Each token stands at most once in the alive list, polls left are at most 64, and only an alive
    /// token is leaving.
    ghost lawful: { (provider : Self) → IsLawful (cloud provider) };
}
