//! What holds of every history's text, and of every row that is seen.
ghost use Rattle.std.specs.Prelude.{◌≡◌, ◌↔◌, ℕ, List, true};
ghost use Rattle.core_state.specs.declared.entry.Entry.{Entry};
ghost use Rattle.core_state.specs.State.{StateData};
ghost use Rattle.row_table.specs.Chains.{IsCurrent};
ghost use Rattle.row_table.specs.declared.row.Row.{Row};
ghost use Rattle.report.specs.Outputs.{is_current};
ghost use Rattle.report.specs.Seen.{row_seen};
ghost use Rattle.report.specs.Text.{IsParted};

/// The text of all entries is that of the first ones and then what the others add.
pub fn text_is_parted()
    ensures { (opening : StateData) (entries : List Entry) (from : ℕ)
        → IsParted opening entries from }
{}

/// A row that is seen is current exactly where the row itself is.
pub fn seen_row_is_current()
    ensures { (r : Row) → (is_current (row_seen r) ≡ true) ↔ IsCurrent r }
{}
