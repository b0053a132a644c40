//! A keeper of records: what it shows, its calls, its laws. Where it doesn't tell what a crash leaves, or
//! what it reads as, the clauses on these say nothing.
ghost use Rattle.std.specs.Prelude.{◌≡◌, ◌≢◌, ℕ, List, false, Err, Ok, Some, IsTrue, IfOk, OnOk, OnErr};
ghost use Rattle.heat_value.specs.Counts.{Rose};
ghost use Rattle.core_state.specs.Applies.{AllApply};
ghost use Rattle.core_state.specs.Changes.{applied};
ghost use Rattle.core_state.specs.State.{StateData};
ghost use Rattle.core_state.specs.declared.change.Change.{Change as change_type};
ghost use Rattle.step_relation.specs.Images.{AreKeepable, HasKeepableRows, IsMade};
ghost use Rattle.record_keeper.specs.Shown.{ShownKeeper, StandsFor, LeavesOnly, SameKeeper, SameOpenings, at_rest};
ghost use Rattle.record_keeper.specs.Laws.{IsLawful};
ghost use Rattle.record_keeper.specs.Calls.{HasOpened, IsForeign, IsUnfit, ComesOf, HasAppended, IsLeftOf};
ghost use Rattle.record_keeper.specs.Calls.{IsReread, StaysAsItIs, HasCompacted, GoesOn};

use crate::open_fault::OpenFault;
use core_state::{Ready, State};
use std::alloc::{AllocError, Global};

/// An append or a compaction failed. The count of faults has risen.
#[derive(Clone, Copy, Debug, PartialEq, Eq)]
pub struct KeepFailed;

/// Keeps the changes of a state, step by step, and gives the state that they made.
pub trait Keeper {
    /// What it tells: what it stands for, and what a crash may leave of it.
    ghost shown: { Self → ShownKeeper };

    /// How often it has failed. The count never falls.
    ghost faults: { Self → ℕ };

    /// The states with which it may be opened: where it recalls, what it reads as.
    ghost may_open: { Self → StateData → Type 0 };

    /// These changes may be appended with no memory wanted.
    ghost has_room: { Self → List change_type → Type 0 };

    /// It may be compacted to this state with no memory wanted.
    ghost has_copy_room: { Self → StateData → Type 0 };

    /// Opens it, anew where it was opened before. What it may be opened with stays but after a fault.
    fn open(&mut self, alloc: Global) -> Result<State, OpenFault>
        ensures opened { IfOk result
            (λ s. HasOpened (may_open self.old) (shown self.new) s.state) }
        ensures closed { OnErr result ((shown self.new).going ≡ false) }
        ensures foreign { result ≡ Err OpenFault.Foreign → IsTrue (shown self.old).recalls →
            IsForeign (may_open self.old) }
        ensures opens { result ≢ Err OpenFault.DiskFault →
            SameOpenings (may_open self.old) (may_open self.new) }
        ensures crash { IsTrue (shown self.old).tells →
            LeavesOnly (shown self.old) (shown self.new) (ComesOf (shown self.old)) }
        ensures goes_on { GoesOn (shown self.old) (shown self.new)
            (faults self.old) (faults self.new) }
        ensures cause { result ≡ Err OpenFault.DiskFault → Rose (faults self.old) (faults self.new) };

    /// Takes the memory for the append of these changes. What was taken before stays until it writes.
    fn reserve(&mut self, changes: &[Ready]) -> Result<(), AllocError>
        requires { AreKeepable changes.now }
        ensures room { OnOk result (has_room self.new changes.now) }
        ensures keeps { (cs : List change_type) → has_room self.old cs → has_room self.new cs }
        ensures keeps_copies { (s : StateData) → has_copy_room self.old s →
            has_copy_room self.new s }
        ensures same { SameKeeper (shown self.old) (shown self.new) }
        ensures opens { SameOpenings (may_open self.old) (may_open self.new) }
        ensures faults { faults self.new ≡ faults self.old };

    /// Adds a step's changes. At Ok they are kept: they stay through each crash from then on. It takes no
    /// memory.
    fn append(&mut self, changes: &[Ready]) -> Result<(), KeepFailed>
        requires going { IsTrue (shown self.old).going }
        requires young { (shown self.old).is_old ≡ false }
        requires keepable { AreKeepable changes.now }
        requires applies { (s : StateData) → (shown self.old).stands s → AllApply changes.now s }
        requires room { has_room self.old changes.now }
        ensures ok { OnOk result (HasAppended changes.now (shown self.old) (shown self.new)) }
        ensures err { OnErr result ((shown self.new).going ≡ false) }
        ensures crash { IsTrue (shown self.old).tells → (s : StateData) →
            (shown self.old).stands s →
            LeavesOnly (shown self.old) (shown self.new) (IsLeftOf s (applied changes.now s)) }
        ensures goes_on { GoesOn (shown self.old) (shown self.new)
            (faults self.old) (faults self.new) }
        ensures cause { OnErr result (Rose (faults self.old) (faults self.new)) };

    /// Whether what it reads as is this state, the order of its lists too.
    fn reread(&mut self, s: &State) -> Result<bool, OpenFault>
        ensures read { IsTrue (shown self.old).recalls →
            IfOk result (IsReread (may_open self.old) (shown self.old) s.now.state) }
        ensures foreign { result ≡ Err OpenFault.Foreign → IsTrue (shown self.old).recalls →
            StandsFor (shown self.old) s.now.state → IsUnfit s.now.state }
        ensures no_image { result ≡ Err OpenFault.Foreign → IsTrue (shown self.old).recalls →
            IsForeign (may_open self.old) }
        ensures same { result ≢ Err OpenFault.DiskFault →
            StaysAsItIs (shown self.old) (shown self.new) }
        ensures crash { IsTrue (shown self.old).tells →
            LeavesOnly (shown self.old) (shown self.new) (ComesOf (shown self.old)) }
        ensures goes_on { GoesOn (shown self.old) (shown self.new)
            (faults self.old) (faults self.new) }
        ensures cause { result ≡ Err OpenFault.DiskFault → Rose (faults self.old) (faults self.new) };

    /// Whether a compaction would make it shorter by much.
    fn is_long(&self) -> bool
        ensures { result ≡ (shown self.now).is_long };

    /// Whether it has to be compacted before anything is appended.
    fn is_old(&self) -> bool
        ensures { result ≡ (shown self.now).is_old };

    /// Whether it may still be compacted.
    fn can_compact(&self) -> bool
        ensures { result ≡ (shown self.now).can_compact };

    /// Takes the memory for a compaction to this state. What was taken before stays until it writes.
    fn reserve_compact(&mut self, s: &State) -> Result<(), AllocError>
        requires made { IsMade s.now.state }
        requires keepable { HasKeepableRows s.now.state }
        ensures room { OnOk result (has_copy_room self.new s.now.state) }
        ensures keeps { (cs : List change_type) → has_room self.old cs → has_room self.new cs }
        ensures keeps_copies { (t : StateData) → has_copy_room self.old t →
            has_copy_room self.new t }
        ensures same { SameKeeper (shown self.old) (shown self.new) }
        ensures opens { SameOpenings (may_open self.old) (may_open self.new) }
        ensures faults { faults self.new ≡ faults self.old };

    /// Puts the state that it stands for in place of all changes that made it; nothing where it can't be
    /// compacted. It takes no memory.
    fn compact(&mut self, s: &State) -> Result<(), KeepFailed>
        requires stands { StandsFor (shown self.old) s.now.state }
        requires made { IsMade s.now.state }
        requires keepable { HasKeepableRows s.now.state }
        requires room { has_copy_room self.old s.now.state }
        ensures done { IsTrue (shown self.old).can_compact →
            OnOk result (HasCompacted s.now.state (shown self.new)) }
        ensures idle { (shown self.old).can_compact ≡ false →
            (self.new ≡ self.old) × (result ≡ Ok tt) }
        ensures err { OnErr result ((shown self.new).going ≡ false) }
        ensures crash { IsTrue (shown self.old).tells →
            LeavesOnly (shown self.old) (shown self.new) (λ l. l ≡ Some (at_rest s.now.state)) }
        ensures goes_on { GoesOn (shown self.old) (shown self.new)
            (faults self.old) (faults self.new) }
        ensures cause { OnErr result (Rose (faults self.old) (faults self.new)) };

    /// It stands for one state at most; where it recalls it reads as one at most, and as what it stands for;
    /// where it tells, it recalls too, a crash leaves that state and nothing else, and since a moment what it
    /// might have left at any moment from then on.
    ghost lawful: { (keeper : Self) → IsLawful (may_open keeper) (shown keeper) };
}
