//! The end of a lock: all its passes are joined, two by two, and the value is taken out.
ghost use Rattle.std.specs.Prelude.{◌≡◌, ℕ, ◌<◌, ◌↔◌, ◌∷◌, [], length, All, IsTrue, vec_len};
ghost use Rattle.book_lock.specs.Closing.{AreSiblingNames, IsDeepest, IsBeside};
ghost use Rattle.book_lock.specs.Names.{parent};

use crate::chronicle::Chronicle;
use crate::pass::Pass;
use crate::shared::Shared;
use crate::steps::merge;

// Whether these are the names of two that a split gave.
fn are_siblings(name: &[bool], other: &[bool]) -> bool
    ensures { IsTrue result ↔ AreSiblingNames name.now other.now }
{
    let Some((flag, parent)) = name.split_last() else {
        return false;
    };
    let Some((other_flag, other_parent)) = other.split_last() else {
        return false;
    };
    *flag != *other_flag && parent == other_parent
}

// The name becomes that of the pass that was split.
fn take_back(name: &mut Vec<bool>)
    ensures { name.new.items ≡ parent name.old.items }
{
    let _ = name.pop();
}

// The index of a pass that was split as often as any.
fn deepest<T>(passes: &[Pass<T>]) -> usize
    requires { 0 < length passes.now }
    ensures within { result < length passes.now }
    ensures deepest { IsDeepest passes.now result }
{
    let mut deep = 0;
    for i in 1..passes.len() {
        if passes[deep].depth() < passes[i].depth() {
            deep = i;
        }
    }
    deep
}

// The index of the pass that was split off together with this one.
fn beside<T>(passes: &[Pass<T>], pass: &Pass<T>) -> usize
    requires { (k : ℕ) × (k < length passes.now) × IsBeside passes.now pass.now.name k }
    ensures within { result < length passes.now }
    ensures sibling { IsBeside passes.now pass.now.name result }
{
    for (i, other) in passes.iter().enumerate() {
        if are_siblings(other.name(), pass.name()) {
            return i;
        }
    }
    unreachable!()
}

impl<T: Chronicle> Shared<T> {
    ghost use Rattle.book_lock.specs.Closing.{AreAll, IsFree, joined_pass, Settled, JoinsTwo};

    // The pass takes its sibling's account beside its own.
    fn join(&self, pass: &mut Pass<T>, other: Pass<T>)
        requires free { IsFree self.now pass.old }
        requires other { IsFree self.now other }
        requires siblings { AreSiblingNames pass.old.name other.name }
        ensures { pass.new ≡ joined_pass pass.old other }
    {
        let Pass {
            seat,
            name: _,
            holds: _,
        } = other;
        merge(&self.board, &mut pass.seat, seat);
        take_back(&mut pass.name);
    }

    // One pass fewer: the one that was split most often goes to its sibling.
    fn join_two(&self, passes: &mut Vec<Pass<T>>)
        requires some { 1 < vec_len passes.old }
        requires free { All (IsFree self.now) passes.old.items }
        requires all { AreAll passes.old.items }
        ensures { JoinsTwo T.list T.origin self.now passes.old.items passes.new.items }
    {
        let pass = passes.remove(deepest(passes.as_slice()));
        let at = beside(passes.as_slice(), &pass);
        self.join(&mut passes[at], pass);
    }

    // The last pass, to which all others were joined.
    fn finish(self, pass: Pass<T>) -> T
        requires free { IsFree self pass }
        requires all { AreAll (pass ∷ []) }
        ensures { Settled T.list T.origin self.opening (pass ∷ []) result }
    {
        let Pass {
            seat,
            name: _,
            holds: _,
        } = pass;
        let Shared { board } = self;
        let mut closed = board.close_with(seat);
        let value = closed.take(0);
        closed.free();
        value.unwrap()
    }

    /// Ends the lock with all its passes, none of which may hold the value.
    pub fn close(self, mut passes: Vec<Pass<T>>) -> T
        requires free { All (IsFree self) passes.items }
        requires all { AreAll passes.items }
        ensures { Settled T.list T.origin self.opening passes.items result }
    {
        while passes.len() > 1 {
            self.join_two(&mut passes);
        }
        let pass = passes.pop().unwrap();
        passes.destroy_empty();
        self.finish(pass)
    }
}
