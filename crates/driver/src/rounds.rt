//! Turns round the live engines.
ghost use Rattle.std.specs.Prelude.{◌≡◌, ◌≢◌, ◌≤◌, [], ℕ, None};
ghost use Rattle.bound_laws.specs.Full.{IsFullWork};
ghost use Rattle.book.specs.Halts.{Halts};
ghost use Rattle.book.specs.Kept.{IsSameBook, IsSoundOpening};
ghost use Rattle.book.specs.Quiet.{page};
ghost use Rattle.driver.specs.Leaving.{LeavesAlong};
ghost use Rattle.driver.specs.Settled.{AreSettled};
ghost use Rattle.driver.specs.Turns.{HasRan};

use crate::next::next_engine;
use crate::ran::Ran;
use book::{Book, Turn};
use provider::Provider;
use record_keeper::Keeper;
use type_catalog::Registry;

/// Makes at most `n` turns, until the book is idle. It goes round the live engines by rising number from
/// the lowest; one that has nothing to do is passed over, and isn't counted.
pub fn turns<K: Keeper, P: Provider>(book: &mut Book<K, P>, n: u128, registry: &Registry) -> Ran
    requires live { book.old.state.live ≢ [] }
    ensures ran { HasRan n (page book.old.state book.old.entries)
        (page book.new.state book.new.entries) result }
    ensures enough { IsSoundOpening P.cloud book.old → (w m : ℕ) → IsFullWork book.old.state w → w ≤ n
        → result ≢ Ran.Tired m }
    ensures within { IsSoundOpening P.cloud book.old → (w m : ℕ) → IsFullWork book.old.state w
        → result ≡ Ran.Idle m → m ≤ w }
    ensures settled { IsSoundOpening P.cloud book.old → (m : ℕ) → result ≡ Ran.Idle m
        → AreSettled P.cloud book.new }
    ensures live { book.new.state.live ≡ book.old.state.live }
    ensures same { IsSameBook book.old book.new }
    ensures halt { Halts K.faults Ran.DiskFault book.old book.new result }
    ensures leaves { book.old.halt ≡ None → LeavesAlong K.shown P.cloud book.old book.new }
{
    book.promises();
    let mut last = 0;
    for made in 0..n {
        let Some(e) = next_engine(book, last) else {
            return Ran::Idle(made);
        };
        match book.turn(e, registry) {
            Turn::Stepped => last = e.get(),
            Turn::Idle | Turn::Lost => unreachable!(),
            Turn::Worn => return Ran::Worn,
            Turn::DiskFault => return Ran::DiskFault,
            Turn::Memory => return Ran::Memory,
        }
    }
    match next_engine(book, last) {
        Some(_) => Ran::Tired(n),
        None => Ran::Idle(n),
    }
}
