//! The rows that are stored: each row write in its turn.
ghost use Rattle.std.specs.Prelude.{◌≡◌, ℕ, Bool, IfOk, OnOk, fold};
ghost use Rattle.heat_plan.specs.declared.token.Token.{Token};
ghost use Rattle.step_relation.specs.Opening.{empty_opening};
ghost use Rattle.step_relation.specs.Stored.{stored, stored_by, written};

use core_state::{Entry, Row, RowWrite, What};
use heat_value::TryCopy;
use keyed_table::ListTable;
use std::alloc::{AllocError, Global};

/// The rows, in the order in which their numbers came.
pub fn stored(alloc: Global, entries: &[Entry]) -> Result<ListTable<Row>, AllocError>
    ensures { (engines : ℕ) (leaving : Token → Bool)
        → IfOk result (λ t. t.items ≡ stored (empty_opening engines leaving) entries.now) }
{
    let mut rows = ListTable::new(alloc);
    for entry in entries {
        store(&mut rows, &entry.what)?;
    }
    Ok(rows)
}

// What an entry writes, in its turn.
fn store(rows: &mut ListTable<Row>, what: &What) -> Result<(), AllocError>
    ensures { OnOk result (rows.new.items ≡ stored_by rows.old.items what.now) }
{
    match what {
        What::Rows { writes } => store_all(rows, writes.as_slice()),
        _ => Ok(()),
    }
}

// The rows after all writes of an entry.
fn store_all(rows: &mut ListTable<Row>, writes: &[RowWrite]) -> Result<(), AllocError>
    ensures { OnOk result (rows.new.items ≡ fold written rows.old.items writes.now) }
{
    for write in writes {
        store_one(rows, write)?;
    }
    Ok(())
}

// A row is set under its number, or goes.
fn store_one(rows: &mut ListTable<Row>, write: &RowWrite) -> Result<(), AllocError>
    ensures { OnOk result (rows.new.items ≡ written rows.old.items write.now) }
{
    match write {
        RowWrite::Set(row) => {
            let row = row.copy()?;
            rows.reserve(1)?;
            rows.put(row);
            Ok(())
        }
        RowWrite::Purge(no) => {
            rows.cut(no);
            Ok(())
        }
    }
}
