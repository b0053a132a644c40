//! The passes of one lock, a thread for each.
ghost use Rattle.std.specs.Prelude.{◌≡◌, ◌<◌, ◌≤◌, ◌+◌, ◌∷◌, [], ◌++◌, IfOk, IfErr, OnOk, All, vec_len, vec_capacity};
ghost use Rattle.book_lock.specs.Closing.{IsFree, AreAll, KeepNames, StandFor};

use crate::lock::tally::Tally;
use book_lock::{Pass, Shared};
use std::alloc::{AllocError, Global};
use std::sync::Wait;
use std::thread;
use std::thread::Threads;

/// A lock with its first pass, and room for so many.
pub fn opened(
    alloc: Global,
    threads: usize,
) -> Result<(Shared<Tally>, Vec<Pass<Tally>>), AllocError>
    requires { 0 < threads }
    ensures room { IfOk result (λ r. (threads ≤ vec_capacity r.1) × (vec_len r.1 ≡ 1)) }
    ensures free { IfOk result (λ r. All (IsFree r.0) r.1.items) }
    ensures all { IfOk result (λ r. AreAll r.1.items) }
{
    let mut passes = Vec::with_capacity(alloc, threads)?;
    match Shared::new(alloc, Tally { holds: 0 }) {
        Ok((shared, pass)) => {
            push(&mut passes, pass);
            Ok((shared, passes))
        }
        Err((_tally, error)) => {
            passes.destroy_empty();
            Err(error)
        }
    }
}

fn push(passes: &mut Vec<Pass<Tally>>, pass: Pass<Tally>)
    requires { vec_len passes.old < vec_capacity passes.old }
    ensures items { passes.new.items ≡ passes.old.items ++ pass ∷ [] }
    ensures len { vec_len passes.new ≡ vec_len passes.old + 1 }
    ensures capacity { vec_capacity passes.old ≤ vec_capacity passes.new }
{
    match passes.push(pass) {
        Ok(()) => {}
        Err(_failed) => unreachable!(),
    }
}

fn halves(
    shared: &Shared<Tally>,
    pass: Pass<Tally>,
) -> Result<(Pass<Tally>, Pass<Tally>), (Pass<Tally>, AllocError)>
    requires { IsFree shared.now pass }
    ensures elder { IfOk result (λ r. IsFree shared.now r.0) }
    ensures younger { IfOk result (λ r. IsFree shared.now r.1) }
    ensures both { IfOk result (λ r. StandFor pass r.0 r.1) }
    ensures memory { IfErr result (λ e. e.0 ≡ pass) }
{
    shared.split(pass)
}

// The last pass is split, and the two take its place. Where memory is short all stays as it was.
fn split_last(shared: &Shared<Tally>, passes: &mut Vec<Pass<Tally>>) -> Result<(), AllocError>
    requires some { 0 < vec_len passes.old }
    requires room { vec_len passes.old < vec_capacity passes.old }
    requires free { All (IsFree shared.now) passes.old.items }
    requires all { AreAll passes.old.items }
    ensures free { All (IsFree shared.now) passes.new.items }
    ensures all { AreAll passes.new.items }
    ensures more { OnOk result (vec_len passes.new ≡ vec_len passes.old + 1) }
    ensures room { vec_capacity passes.old ≤ vec_capacity passes.new }
{
    let pass = passes.pop().unwrap();
    match halves(shared, pass) {
        Ok((elder, younger)) => {
            push(passes, younger);
            push(passes, elder);
            Ok(())
        }
        Err((pass, error)) => {
            push(passes, pass);
            Err(error)
        }
    }
}

/// Splits passes until there are so many, or memory is short.
pub fn split_to(
    shared: &Shared<Tally>,
    passes: &mut Vec<Pass<Tally>>,
    threads: usize,
) -> Result<(), AllocError>
    requires some { 0 < vec_len passes.old }
    requires room { threads ≤ vec_capacity passes.old }
    requires free { All (IsFree shared.now) passes.old.items }
    requires all { AreAll passes.old.items }
    ensures free { All (IsFree shared.now) passes.new.items }
    ensures all { AreAll passes.new.items }
{
    while passes.len() < threads {
        split_last(shared, passes)?;
    }
    Ok(())
}

fn hold<R: Wait>(rt: &R, shared: &Shared<Tally>, pass: &mut Pass<Tally>)
    requires { IsFree shared.now pass.old }
    ensures free { IsFree shared.now pass.new }
    ensures name { pass.new.name ≡ pass.old.name }
{
    let mut tally = shared.lock(rt, pass);
    tally.holds = tally.holds.saturating_add(1);
    shared.release(pass, tally);
}

fn hold_often<R: Wait>(rt: &R, shared: &Shared<Tally>, pass: &mut Pass<Tally>, holds: u64)
    requires { IsFree shared.now pass.old }
    ensures free { IsFree shared.now pass.new }
    ensures name { pass.new.name ≡ pass.old.name }
{
    for _ in 0..holds {
        hold(rt, shared, pass);
    }
}

fn hold_each<R: Threads + Wait + Sync>(
    rt: &R,
    shared: &Shared<Tally>,
    passes: &mut [Pass<Tally>],
    holds: u64,
)
    requires free { All (IsFree shared.now) passes.old }
    ensures free { All (IsFree shared.now) passes.new }
    ensures names { KeepNames passes.old passes.new }
{
    let threads = passes.len().max(1);
    let each = |_: usize, pass: &mut Pass<Tally>|
        requires { IsFree shared.now pass.now }
        ensures { IsFree shared.entry.now pass.exit.now × (pass.exit.now.name ≡ pass.entry.now.name) }
    { hold_often(rt, shared, pass, holds) };
    thread::for_each_mut(rt, passes, threads, &each);
}

/// Each pass holds the value so often, in a thread of its own.
pub fn hold_all<R: Threads + Wait + Sync>(
    rt: &R,
    shared: &Shared<Tally>,
    passes: &mut Vec<Pass<Tally>>,
    holds: u64,
)
    requires free { All (IsFree shared.now) passes.old.items }
    requires all { AreAll passes.old.items }
    ensures free { All (IsFree shared.now) passes.new.items }
    ensures all { AreAll passes.new.items }
{
    hold_each(rt, shared, passes.as_mut_slice(), holds);
}
