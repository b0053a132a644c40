//! Points of graphs, with what they were given.
ghost use Rattle.std.specs.Prelude.{◌≡◌, IfOk, IfErr};
ghost use Rattle.plan_codec.specs.Sheets.{behind};
ghost use Rattle.plan_codec.specs.Spellings.{Takes, Refuses};
ghost use Rattle.row_codec.specs.Records.{spelled_point, IsProperPoint};
ghost use Rattle.row_codec.specs.RecordLaws.{point_parts};

use crate::input_lists::put_inputs;
use crate::of::Of;
use plan_codec::{Readable, Seq, Sheet, StackName, Unread, Writable};
use std::alloc::Global;
use sync_points::{Point, SharedInput};

// The parts in their order.
type Parts = (StackName, (u32, (Of<Seq<SharedInput>>, bool)));

/// The point at the front.
pub(crate) fn point_at(alloc: Global, bytes: &[u8]) -> Result<(Point, &[u8]), Unread>
    ensures ok { IfOk result (λ x. Takes spelled_point IsProperPoint bytes.now x.0 x.1.now) }
    ensures err { IfErr result (Refuses spelled_point IsProperPoint bytes.now) }
{
    let (parts, rest) = Parts::read(alloc, bytes)?;
    Ok((point_of(parts), rest))
}

// The point of its parts.
#[tactic(auto, unfolding(crate::specs::RecordLaws::point_parts))]
fn point_of(parts: Parts) -> Point
    ensures { result ≡ point_parts.to parts }
{
    let (stack, (node, (inputs, done))) = parts;
    Point {
        stack,
        node,
        inputs: inputs.thing,
        done,
    }
}

/// Puts a point.
#[tactic(auto, using(crate::proofs::Puts::puts), unfolding(crate::specs::Records::spelled_point))]
pub(crate) fn put_point(point: &Point, sheet: &mut Sheet)
    ensures bytes { sheet.new ≡ behind sheet.old (spelled_point point.now) }
    ensures proper { IsProperPoint point.now }
{
    point.stack.put(sheet);
    point.node.put(sheet);
    put_inputs(point.inputs.as_slice(), sheet);
    point.done.put(sheet);
}
