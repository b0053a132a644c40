//! Calls in a row for tests, at any provider. Each says after which call the next one's condition holds.
ghost use Rattle.std.specs.Prelude.{IsTrue};
ghost use Rattle.provider.specs.Cloud.{IsAlive};
ghost use Rattle.provider.specs.Calls.{MayGo};

use heat_plan::{Kind, Properties, Token};
use provider::{Answer, Gone, Poll, Provider};

/// Creates; true where that is begun, and then the token is alive.
pub fn make<P: Provider>(cloud: &mut P, token: &Token, kind: &Kind, props: &Properties) -> bool
    ensures { IsTrue result → IsAlive (P.cloud cloud.new) token.now }
{
    match cloud.create(token, kind, props) {
        Answer::Begun => true,
        Answer::Quota | Answer::Failed | Answer::Memory => false,
    }
}

/// Updates an alive token, which stays alive.
pub fn change<P: Provider>(cloud: &mut P, token: &Token, props: &Properties) -> Answer
    requires { IsAlive (P.cloud cloud.old) token.now }
    ensures { IsAlive (P.cloud cloud.new) token.now }
{
    cloud.update(token, props)
}

/// Polls an alive token, which stays alive.
pub fn look<P: Provider>(cloud: &mut P, token: &Token) -> Poll
    requires { IsAlive (P.cloud cloud.old) token.now }
    ensures { IsAlive (P.cloud cloud.new) token.now }
{
    cloud.poll(token)
}

/// Deletes; true where that is begun, and then `wait` may ask for the token.
pub fn send<P: Provider>(cloud: &mut P, token: &Token) -> bool
    ensures { IsTrue result → MayGo (P.cloud cloud.new) token.now }
{
    match cloud.delete(token) {
        Answer::Begun => true,
        _ => false,
    }
}

/// Asks whether a token is gone; it may be asked again.
pub fn wait<P: Provider>(cloud: &mut P, token: &Token) -> Gone
    requires { MayGo (P.cloud cloud.old) token.now }
    ensures { MayGo (P.cloud cloud.new) token.now }
{
    cloud.gone(token)
}
