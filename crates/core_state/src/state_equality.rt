//! Whether two states hold the same.
ghost use Rattle.std.specs.Prelude.{◌≡◌, ◌↔◌, IsTrue};

use crate::state::State;
use heat_plan::EngineNo;
use heat_value::Equals;

impl State {
    /// Whether the other holds the same: the same records in the same orders, the same live engines and
    /// released tokens, and the same next numbers. How much room each has doesn't count.
    pub fn equals(&self, other: &State) -> bool
        ensures { IsTrue result ↔ (self.now.state ≡ other.now.state) }
    {
        has_same_stacks(self, other)
            && has_same_work(self, other)
            && has_same_live(self.live(), other.live())
            && are_same(self.released(), other.released())
            && self.next() == other.next()
    }
}

// Whether two states have the same stacks, graphs and pasts.
fn has_same_stacks(state: &State, other: &State) -> bool
    ensures { IsTrue result
        ↔ (state.now.state.stacks ≡ other.now.state.stacks) × (state.now.state.graphs ≡ other.now.state.graphs)
        × (state.now.state.pasts ≡ other.now.state.pasts) }
{
    are_same(state.stacks(), other.stacks())
        && are_same(state.graphs(), other.graphs())
        && are_same(state.pasts(), other.pasts())
}

// Whether two states have the same rows, letters and jobs.
fn has_same_work(state: &State, other: &State) -> bool
    ensures { IsTrue result
        ↔ (state.now.state.rows ≡ other.now.state.rows) × (state.now.state.letters ≡ other.now.state.letters)
        × (state.now.state.jobs ≡ other.now.state.jobs) }
{
    are_same(state.rows(), other.rows())
        && are_same(state.letters(), other.letters())
        && are_same(state.jobs(), other.jobs())
}

// Whether two lists have the same engines in the same order.
fn has_same_live(live: &[EngineNo], other: &[EngineNo]) -> bool
    ensures { IsTrue result ↔ (live.now ≡ other.now) }
{
    live == other
}

// Whether two lists hold the same items in the same order.
fn are_same<T: Equals>(items: &[T], others: &[T]) -> bool
    ensures { IsTrue result ↔ (items.now ≡ others.now) }
{
    if items.len() != others.len() {
        return false;
    }
    for i in 0..items.len() {
        if !items[i].equals(&others[i]) {
            return false;
        }
    }
    true
}
