//! What holds of a journal through any run of its calls and of crashes.
ghost use Rattle.std.specs.Prelude.{IsTrue};
ghost use Rattle.row_journal.specs.Images.{ImageData};
ghost use Rattle.row_journal.specs.Lives.{Known, Life, HasSurvived};

use heat_disk::Disk;

/// Openings, appends, snapshots and crashes may follow one another in any order, and a crash may come
/// inside any of them, a crash inside the opening after a crash too: nothing acknowledged is lost, and
/// nothing comes in that no call was given.
pub fn journals_survive<D: Disk>()
    ensures { ((disk : D) → IsTrue (D.shown disk).tells) → (first : ImageData) (k : Known) (disk : D) →
        Life D.shown first k disk → HasSurvived first k (D.shown disk) }
{}
