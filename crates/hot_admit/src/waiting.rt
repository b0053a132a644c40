//! The conditions that wait for another's value, and those that are due to be tried again.
ghost use Rattle.std.specs.Prelude.{◌≡◌, ◌<◌, IfOk, IfSome};

use hot_eval::Tried;
use std::alloc::{AllocError, Global};
use std::collections::BTreeSet;
use std::marker::Model;

/// A condition that is to be tried: how often it was tried before, and its place.
#[derive(Clone, Copy, PartialEq, Eq, PartialOrd, Ord)]
pub struct Due {
    tries: u32,
    pub place: u32,
}

impl Due {
    /// The condition at a place, for the first time.
    pub fn first(place: u32) -> Due
        ensures { result.place ≡ place }
    {
        Due { tries: 0, place }
    }

    // The same condition, once more.
    fn again(self) -> Due
        ensures { result.place ≡ self.place }
    {
        Due {
            tries: self.tries.saturating_add(1),
            place: self.place,
        }
    }
}

/// The conditions that wait, by the place of the one that they wait for; and those that are due, which
/// come out by how often they were tried. So none is tried again and again while what it needs would be found
/// by few tries. Clauses see how many conditions there are.
pub struct Waiting {
    lists: Vec<Vec<Due>>,
    due: BTreeSet<Due>,
}

impl Drop for Waiting {
    fn drop(self) {
        let Waiting { lists: _, due: _ } = self;
    }
}

impl Model for Waiting {
    ghost use Rattle.std.specs.Prelude.{ℕ, ◌<◌, All, length};

    ghost Value = { ℕ };

    ghost view = { λ w. length w.lists.items };

    ghost invariant = { λ w. All (λ l. All (λ d. d.place < length w.lists.items) l.items) w.lists.items
        × All (λ d. d.place < length w.lists.items) w.due.keys };
}

impl Waiting {
    /// None of so many conditions waits, and none is due.
    pub fn new(alloc: Global, count: usize) -> Result<Waiting, AllocError>
        ensures { IfOk result (λ w. w ≡ count) }
    {
        let mut lists = Vec::with_capacity(alloc, count)?;
        for _place in 0..count {
            lists.push(Vec::new(alloc))?;
        }
        Ok(Waiting {
            lists,
            due: BTreeSet::new(alloc),
        })
    }

    /// Notes what came of trying a condition: those that waited for its value are due, or it waits for the
    /// value that it missed.
    pub fn note(&mut self, due: Due, tried: &Tried) -> Result<(), AllocError>
        requires { due.place < self.old }
        ensures { self.new ≡ self.old }
    {
        if tried.flag.is_some() {
            return self.wake(due.place as usize);
        }
        match tried.missed {
            Some(place) => self.wait(due.again(), place),
            None => Ok(()),
        }
    }

    // Those that wait for this condition are due.
    fn wake(&mut self, place: usize) -> Result<(), AllocError>
        requires { place < self.old }
        ensures { self.new ≡ self.old }
    {
        for due in &self.lists[place] {
            self.due.insert(*due)?;
        }
        Ok(())
    }

    // One waits for the condition at this place.
    fn wait(&mut self, due: Due, place: usize) -> Result<(), AllocError>
        requires { due.place < self.old }
        ensures { self.new ≡ self.old }
    {
        if let Some(list) = self.lists.get_mut(place) {
            list.push(due)?;
        }
        Ok(())
    }

    /// Takes out the one that is due and was tried least often.
    pub fn take_next(&mut self) -> Option<Due>
        ensures placed { IfSome result (λ d. d.place < self.old) }
        ensures same { self.new ≡ self.old }
    {
        self.due.pop_first()
    }
}
