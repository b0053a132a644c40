//! Whole uses of the lock, with a ledger of (who, number) as the value.
ghost use Rattle.std.specs.Prelude.{◌≡◌, ◌<◌, ◌∷◌, [], ◌++◌, All};
ghost use Rattle.book_lock.specs.Closing.{IsFree, AreAll, KeepNames, StandFor};

use crate::{Chronicle, Pass, Shared};
use std::alloc::Global;
use std::process::Abort;
use std::sync::Wait;
use std::thread;
use std::thread::Threads;

#[derive(Drop)]
struct Ledger {
    entries: Vec<(u64, u64)>,
    mark: u64,
}

impl Chronicle for Ledger {
    type Entry = (u64, u64);

    type Origin = u64;

    ghost list = { λ ledger. ledger.entries.items };

    ghost origin = { λ ledger. ledger.mark };
}

// One hold of the ledger, which adds so many entries.
fn add<R: Wait>(rt: &R, shared: &Shared<Ledger>, pass: &mut Pass<Ledger>, who: u64, number: u64)
    requires { IsFree shared.now pass.old }
    ensures free { IsFree shared.now pass.new }
    ensures name { pass.new.name ≡ pass.old.name }
{
    let mut ledger = shared.lock(rt, pass);
    let _ = ledger.entries.push((who, number));
    shared.release(pass, ledger);
}

// One hold for each number from 1 on.
fn work<R: Wait>(rt: &R, shared: &Shared<Ledger>, pass: &mut Pass<Ledger>, who: u64, holds: u64)
    requires { IsFree shared.now pass.old }
    ensures free { IsFree shared.now pass.new }
    ensures name { pass.new.name ≡ pass.old.name }
{
    for number in 0..holds {
        add(rt, shared, pass, who, number + 1);
    }
}

fn opened<R: Abort>(rt: &R, alloc: Global) -> (Shared<Ledger>, Pass<Ledger>)
    ensures free { IsFree result.0 result.1 }
    ensures all { AreAll (result.1 ∷ []) }
{
    let ledger = Ledger {
        entries: Vec::new(alloc),
        mark: 7,
    };
    match Shared::new(alloc, ledger) {
        Ok(both) => both,
        Err(_) => panic!(rt; "no memory for the lock"),
    }
}

fn push<R: Abort>(rt: &R, passes: &mut Vec<Pass<Ledger>>, pass: Pass<Ledger>)
    ensures { passes.new.items ≡ passes.old.items ++ pass ∷ [] }
{
    match passes.push(pass) {
        Ok(()) => {}
        Err(_failed) => panic!(rt; "no memory for a pass"),
    }
}

fn halves<R: Abort>(
    rt: &R,
    shared: &Shared<Ledger>,
    pass: Pass<Ledger>,
) -> (Pass<Ledger>, Pass<Ledger>)
    requires { IsFree shared.now pass }
    ensures elder { IsFree shared.now result.0 }
    ensures younger { IsFree shared.now result.1 }
    ensures both { StandFor pass result.0 result.1 }
{
    match shared.split(pass) {
        Ok(both) => both,
        Err(_failed) => panic!(rt; "no memory for a name"),
    }
}

// Each pass is split, and the order is turned round.
fn doubled<R: Abort>(
    rt: &R,
    shared: &Shared<Ledger>,
    mut passes: Vec<Pass<Ledger>>,
) -> Vec<Pass<Ledger>>
    requires free { All (IsFree shared.now) passes.items }
    requires all { AreAll passes.items }
    ensures free { All (IsFree shared.now) result.items }
    ensures all { AreAll result.items }
{
    let mut next = Vec::new(*passes.allocator());
    while let Some(pass) = passes.pop() {
        let (elder, younger) = halves(rt, shared, pass);
        push(rt, &mut next, younger);
        push(rt, &mut next, elder);
    }
    passes.destroy_empty();
    next
}

// Each pass makes so many holds, and keeps its name.
fn work_each<R: Threads + Wait + Sync>(
    rt: &R,
    shared: &Shared<Ledger>,
    passes: &mut [Pass<Ledger>],
    threads: usize,
    holds: u64,
)
    requires threads { 0 < threads }
    requires free { All (IsFree shared.now) passes.old }
    ensures free { All (IsFree shared.now) passes.new }
    ensures names { KeepNames passes.old passes.new }
{
    let each = |who: usize, pass: &mut Pass<Ledger>|
        requires { IsFree shared.now pass.now }
        ensures { IsFree shared.entry.now pass.exit.now × (pass.exit.now.name ≡ pass.entry.now.name) }
    { work(rt, shared, pass, who as u64, holds) };
    thread::for_each_mut(rt, passes, threads, &each);
}

fn work_all<R: Threads + Wait + Sync>(
    rt: &R,
    shared: &Shared<Ledger>,
    passes: &mut Vec<Pass<Ledger>>,
    threads: usize,
    holds: u64,
)
    requires threads { 0 < threads }
    requires free { All (IsFree shared.now) passes.old.items }
    requires all { AreAll passes.old.items }
    ensures free { All (IsFree shared.now) passes.new.items }
    ensures all { AreAll passes.new.items }
{
    work_each(rt, shared, passes.as_mut_slice(), threads, holds);
}

// So many passes as `depth` splits of all make add so many entries each, and the lock is closed.
fn run<R: Abort + Threads + Wait + Sync>(
    rt: &R,
    alloc: Global,
    depth: u32,
    threads: usize,
    holds: u64,
) -> Ledger
    requires { 0 < threads }
{
    let (shared, pass) = opened(rt, alloc);
    let mut passes = Vec::new(alloc);
    push(rt, &mut passes, pass);
    for _ in 0..depth {
        passes = doubled(rt, &shared, passes);
    }
    work_all(rt, &shared, &mut passes, threads, holds);
    shared.close(passes)
}

// Each of so many holders has added the numbers up to `holds` in order, each once.
fn is_whole(ledger: &Ledger, holders: usize, holds: u64) -> bool {
    let mut last = [0u64; 8];
    for (who, number) in ledger.entries.as_slice() {
        let who = *who as usize;
        if who >= 8 || last[who] >= *number || last[who] + 1 != *number {
            return false;
        }
        last[who] = *number;
    }
    ledger.mark == 7
        && last.iter().enumerate().all(|(who, last)| *last == if who < holders { holds } else { 0 })
}

#[test]
fn one_pass_adds_and_adds_nothing(rt: HostRuntime) {
    let (shared, mut pass) = opened(&rt, rt.alloc());
    add(&rt, &shared, &mut pass, 1, 1);
    let ledger = shared.lock(&rt, &mut pass);
    assert!(rt; pass.holds() && ledger.entries.len() == 1);
    shared.release(&mut pass, ledger);
    assert!(rt; !pass.holds());
    let mut passes = Vec::new(rt.alloc());
    push(&rt, &mut passes, pass);
    let ledger = shared.close(passes);
    assert_eq!(rt; ledger.entries.as_slice(), [(1, 1)].as_slice());
    assert_eq!(rt; ledger.mark, 7);
}

#[test]
fn four_threads_add_a_thousand_each(rt: HostRuntime) {
    let ledger = run(&rt, rt.alloc(), 2, 4, 1000);
    assert_eq!(rt; ledger.entries.len(), 4000);
    assert!(rt; is_whole(&ledger, 4, 1000));
}

#[test]
fn a_tree_of_depth_three_joins_in_another_order(rt: HostRuntime) {
    let ledger = run(&rt, rt.alloc(), 3, 3, 5);
    assert_eq!(rt; ledger.entries.len(), 40);
    assert!(rt; is_whole(&ledger, 8, 5));
}
