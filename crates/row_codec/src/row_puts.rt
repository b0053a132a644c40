//! Writing rows.
ghost use Rattle.std.specs.Prelude.{◌≡◌, ◌≢◌, ◌<◌, ◌^◌};
ghost use Rattle.plan_codec.specs.Below.{Rollback};
ghost use Rattle.plan_codec.specs.Sheets.{behind};
ghost use Rattle.row_codec.specs.Records.{spelled_row, spelled_row_head, spelled_row_contents, spelled_row_ties, IsProperRow};
ghost use Rattle.row_codec.specs.RowParts.{IsRowHead, AreRowContents, AreRowTies};

use crate::acts::put_act;
use crate::statuses::put_status;
use plan_codec::{Sheet, Writable, put_number};
use row_table::Row;

/// Puts a row.
#[tactic(auto, using(crate::proofs::Puts::puts), unfolding(crate::specs::Records::spelled_row))]
pub(crate) fn put_row(row: &Row, sheet: &mut Sheet)
    ensures bytes { sheet.new ≡ behind sheet.old (spelled_row row.now) }
    ensures proper { row.now.key < 2 ^ 62 → row.now.act ≢ Rollback → IsProperRow row.now }
{
    put_head(row, sheet);
    put_contents(row, sheet);
    put_ties(row, sheet);
}

// Puts the row's number and names, what was last begun at it, and how far that is.
#[tactic(auto, using(crate::proofs::Puts::puts), unfolding(crate::specs::Records::spelled_row_head))]
fn put_head(row: &Row, sheet: &mut Sheet)
    ensures bytes { sheet.new ≡ behind sheet.old (spelled_row_head row.now) }
    ensures proper { IsRowHead row.now }
{
    row.no.put(sheet);
    row.stack.put(sheet);
    row.name.put(sheet);
    row.kind.put(sheet);
    put_act(row.act, sheet);
    put_status(row.status, sheet);
    row.trav.put(sheet);
}

// Puts the row's properties, those that it is to get, and its facts.
#[tactic(auto, using(crate::proofs::Puts::puts), unfolding(crate::specs::Records::spelled_row_contents))]
fn put_contents(row: &Row, sheet: &mut Sheet)
    ensures bytes { sheet.new ≡ behind sheet.old (spelled_row_contents row.now) }
    ensures proper { AreRowContents row.now }
{
    row.props.put(sheet);
    row.target.put(sheet);
    row.facts.put(sheet);
}

// Puts the rows round the row, its engine, key and policy.
#[tactic(auto, using(crate::proofs::Puts::puts), unfolding(crate::specs::Records::spelled_row_ties))]
fn put_ties(row: &Row, sheet: &mut Sheet)
    ensures bytes { sheet.new ≡ behind sheet.old (spelled_row_ties row.now) }
    ensures proper { AreRowTies row.now }
{
    row.requires_.put(sheet);
    row.replaces.put(sheet);
    row.replaced_by.put(sheet);
    row.engine.put(sheet);
    put_number(row.key, sheet);
    row.policy.put(sheet);
}
