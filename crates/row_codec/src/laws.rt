//! Laws of spellings. Each function has an empty body and stands for its clause.
ghost use Rattle.std.specs.Prelude.{◌≡◌, ◌++◌, [], List, ℕ};
ghost use Rattle.core_state.specs.declared.change.Change.{Change};
ghost use Rattle.row_codec.specs.Changes.{spelled, AreProper, IsSpelling};

/// Bytes are the spelling of one list of changes at most.
pub fn one_reading()
    ensures { (bytes : List ℕ) (cs ds : List Change) → IsSpelling bytes cs → IsSpelling bytes ds → cs ≡ ds }
{}

/// No spelling goes on as another one does.
pub fn no_prefix()
    ensures { (bytes rest : List ℕ) (cs ds : List Change)
        → IsSpelling bytes cs → IsSpelling (bytes ++ rest) ds → rest ≡ [] }
{}

/// Each list of proper changes has a spelling, which is read as that list alone.
pub fn read_back()
    ensures { (cs ds : List Change) → AreProper cs → IsSpelling (spelled cs) cs
        × (IsSpelling (spelled cs) ds → ds ≡ cs) }
{}
