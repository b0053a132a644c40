//! Stacks.
ghost use Rattle.std.specs.Prelude.{◌≡◌, IfOk, IfErr};
ghost use Rattle.plan_codec.specs.Sheets.{behind};
ghost use Rattle.plan_codec.specs.Spellings.{Takes, Refuses};
ghost use Rattle.row_codec.specs.Records.{spelled_stack, IsProperStack};
ghost use Rattle.row_codec.specs.RecordLaws.{stack_parts};

use crate::acts::put_act;
use crate::of::Of;
use crate::shared_plans::{plan_of, put_plan};
use crate::statuses::put_status;
use core_state::{SharedPlan, Stack};
use plan_codec::{Act, Readable, Sheet, StackName, StackNo, Status, TravNo, Unread, Writable};
use std::alloc::Global;

// The parts in their order.
type Parts = (
    StackName,
    (
        StackNo,
        (TravNo, (Of<Act>, (Of<Status>, Option<Of<SharedPlan>>))),
    ),
);

/// The stack at the front.
pub(crate) fn stack_at(alloc: Global, bytes: &[u8]) -> Result<(Stack, &[u8]), Unread>
    ensures ok { IfOk result (λ x. Takes spelled_stack IsProperStack bytes.now x.0 x.1.now) }
    ensures err { IfErr result (Refuses spelled_stack IsProperStack bytes.now) }
{
    let (parts, rest) = Parts::read(alloc, bytes)?;
    Ok((stack_of(parts), rest))
}

// The stack of its parts.
#[tactic(auto, unfolding(crate::specs::RecordLaws::stack_parts))]
fn stack_of(parts: Parts) -> Stack
    ensures { result ≡ stack_parts.to parts }
{
    let (name, (no, (trav, (act, (status, plan))))) = parts;
    Stack {
        name,
        no,
        trav,
        act: act.thing,
        status: status.thing,
        plan: plan_of(plan),
    }
}

/// Puts a stack.
#[tactic(auto, using(crate::proofs::Puts::puts), unfolding(crate::specs::Records::spelled_stack))]
pub(crate) fn put_stack(stack: &Stack, sheet: &mut Sheet)
    ensures bytes { sheet.new ≡ behind sheet.old (spelled_stack stack.now) }
    ensures proper { IsProperStack stack.now }
{
    stack.name.put(sheet);
    stack.no.put(sheet);
    stack.trav.put(sheet);
    put_act(stack.act, sheet);
    put_status(stack.status, sheet);
    put_plan(&stack.plan, sheet);
}
