//! What stacks could go back to.
ghost use Rattle.std.specs.Prelude.{◌≡◌, IfOk, IfErr};
ghost use Rattle.plan_codec.specs.Sheets.{behind};
ghost use Rattle.plan_codec.specs.Spellings.{Takes, Refuses};
ghost use Rattle.row_codec.specs.Records.{spelled_past, IsProperPast};
ghost use Rattle.row_codec.specs.RecordLaws.{past_parts};

use crate::of::Of;
use crate::shared_plans::{plan_of, put_plan};
use core_state::{Past, SharedPlan};
use plan_codec::{Readable, Sheet, StackName, Unread, Writable};
use std::alloc::Global;

// The parts in their order.
type Parts = (StackName, (bool, Option<Of<SharedPlan>>));

/// The past at the front.
pub(crate) fn past_at(alloc: Global, bytes: &[u8]) -> Result<(Past, &[u8]), Unread>
    ensures ok { IfOk result (λ x. Takes spelled_past IsProperPast bytes.now x.0 x.1.now) }
    ensures err { IfErr result (Refuses spelled_past IsProperPast bytes.now) }
{
    let (parts, rest) = Parts::read(alloc, bytes)?;
    Ok((past_of(parts), rest))
}

// The past of its parts.
#[tactic(auto, unfolding(crate::specs::RecordLaws::past_parts))]
fn past_of(parts: Parts) -> Past
    ensures { result ≡ past_parts.to parts }
{
    let (stack, (rollback, back)) = parts;
    Past {
        stack,
        rollback,
        back: plan_of(back),
    }
}

/// Puts a past.
#[tactic(auto, using(crate::proofs::Puts::puts), unfolding(crate::specs::Records::spelled_past))]
pub(crate) fn put_past(past: &Past, sheet: &mut Sheet)
    ensures bytes { sheet.new ≡ behind sheet.old (spelled_past past.now) }
    ensures proper { IsProperPast past.now }
{
    past.stack.put(sheet);
    past.rollback.put(sheet);
    put_plan(&past.back, sheet);
}
