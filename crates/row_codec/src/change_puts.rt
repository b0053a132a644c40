//! Writing changes.
ghost use Rattle.std.specs.Prelude.{◌≡◌, ◌∷◌};
ghost use Rattle.plan_codec.specs.Sheets.{behind};
ghost use Rattle.row_codec.specs.Changes.{spelled_change, IsProper, IsStorable};

use crate::brought::{Brought, put_stack_graph};
use core_state::Change;
use plan_codec::{Sheet, Writable};

/// Puts a change: its tag, then its fields.
#[tactic(auto, using(crate::proofs::Puts::puts))]
pub(crate) fn put_change(change: &Change, sheet: &mut Sheet)
    ensures bytes { sheet.new ≡ behind sheet.old (spelled_change change.now) }
    ensures proper { IsStorable change.now → IsProper change.now }
{
    match change {
        Change::PutStack(stack) => stack.put_bringing(sheet),
        Change::DropStack(name) => put_tagged(2, name, sheet),
        Change::PutRow(row) => row.put_bringing(sheet),
        Change::DropRow(row) => put_tagged(4, row, sheet),
        Change::PutGraph(name, graph) => put_stack_graph(name, graph, sheet),
        Change::PutPoint(point) => point.put_bringing(sheet),
        Change::Send(letter) => letter.put_bringing(sheet),
        Change::Drop(letter) => put_tagged(8, letter, sheet),
        Change::PutJob(job) => job.put_bringing(sheet),
        Change::EndJob(engine) => put_tagged(10, engine, sheet),
        Change::Enlist(engine) => engine.put_bringing(sheet),
        Change::Stop(engine) => put_tagged(12, engine, sheet),
        Change::Numbers(numbers) => numbers.put_bringing(sheet),
        Change::PutPast(past) => past.put_bringing(sheet),
        Change::Release(token) => token.put_bringing(sheet),
    }
}

// Puts a tag, and a thing behind it.
#[tactic(auto, using(crate::proofs::Puts::puts))]
fn put_tagged<T: Writable>(tag: u8, thing: &T, sheet: &mut Sheet)
    ensures bytes { sheet.new ≡ behind sheet.old (tag ∷ T.Readable.spelled thing.now) }
    ensures proper { T.Readable.proper thing.now }
{
    sheet.put(tag);
    thing.put(sheet);
}
