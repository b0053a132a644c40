//! What is asked of the cloud for a row.
ghost use Rattle.std.specs.Prelude.{◌≡◌};
ghost use Rattle.heat_plan.specs.declared.calls.Request.{Request};
ghost use Rattle.heat_plan.specs.declared.phase.Act.TheVariants.{Update};
ghost use Rattle.step_relation.specs.Asks.{Asks};
ghost use Rattle.provider.specs.Calls.{MayGo};
ghost use Rattle.provider.specs.Cloud.{IsAlive};
ghost use Rattle.book.specs.Requests.{HasAsked, HasPolled, HasLooked};

use core_state::Row;
use heat_plan::{Act, Token};
use provider::{Answer, Gone, Poll, Provider};

/// Asks for what the row's act says.
pub(crate) fn ask<P: Provider>(cloud: &mut P, token: &Token, row: &Row) -> Answer
    requires asks { (asked : Request) × Asks row.now asked }
    requires alive { row.now.act ≡ Update → IsAlive (P.cloud cloud.old) token.now }
    ensures { (asked : Request) → Asks row.now asked
        → HasAsked token.now asked (P.cloud cloud.old) (P.cloud cloud.new) result }
{
    match row.act {
        Act::Create => cloud.create(token, &row.kind, &row.props),
        Act::Update => match &row.target {
            Some(target) => cloud.update(token, target),
            None => cloud.update(token, &row.props),
        },
        Act::Delete => cloud.delete(token),
        Act::Init | Act::Rollback => unreachable!(),
    }
}

/// Polls a resource.
pub(crate) fn poll<P: Provider>(cloud: &mut P, token: &Token) -> Poll
    requires { IsAlive (P.cloud cloud.old) token.now }
    ensures { HasPolled token.now (P.cloud cloud.old) (P.cloud cloud.new) result }
{
    cloud.poll(token)
}

/// Asks whether a resource is gone.
pub(crate) fn look<P: Provider>(cloud: &mut P, token: &Token) -> Gone
    requires { MayGo (P.cloud cloud.old) token.now }
    ensures { HasLooked token.now (P.cloud cloud.old) (P.cloud cloud.new) result }
{
    cloud.gone(token)
}
