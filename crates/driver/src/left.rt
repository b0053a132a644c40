//! How many turns are enough.
ghost use Rattle.bound_laws.specs.Full.{IsFullWork};
ghost use Rattle.driver.specs.Keyed.{AreKeyed};

use crate::jobs::jobs_work;
use crate::letters::letters_work;
use crate::rows::rows_work;
use crate::stacks::stacks_work;
use book::Book;
use core_state::State;
use provider::Provider;
use record_keeper::Keeper;

/// How many turns are enough until nothing is left to do: 69 for each waiting letter, and for each node of a
/// stack's graph that is neither ready nor done; for each job of a stopped engine 70, of a live one 68, 67,
/// 66 or 1 by its stage, and 69 more where it is stale; and 69 for each thing that a rollback of an unmarked
/// stack could need. It takes no memory.
pub fn work<K: Keeper, P: Provider>(book: &Book<K, P>) -> u128
    ensures { IsFullWork book.now.state result }
{
    book.promises();
    work_of(book.state())
}

// The same of a state whose tables have each key once.
fn work_of(s: &State) -> u128
    requires { AreKeyed s.now.state }
    ensures { IsFullWork s.now.state result }
{
    letters_work(s) + jobs_work(s) + rows_work(s) + stacks_work(s)
}
