//! The histories that the top call writes for scripts, as the plain program for the main theorem's words
//! reads them.
use crate::fixtures::{CREATE, drives, joined};
use converge_call::{Book, End, Outcome, Unkept};
use core_state::Entry;
use headline_reader::{Living, could, fits, mark_of, newest, stored};
use heat_io::{MemSink, MemSource};
use heat_plan::{Plan, StackName, Status, Token};
use sim_cloud::SimCloud;
use std::alloc::{AllocError, Global};
use std::test::Fail;

// In which states a token may be.
#[derive(Clone, Copy, Debug, PartialEq, Eq)]
enum Seen {
    Absent,
    Alive,
    Ready,
    Unsure,
}

// Of a stack: its newest traversal, that one's mark, how many rows stand, in which states its resource may
// be, and whether what is alive fits its plan, where it has one.
#[derive(Clone, Copy, Debug, PartialEq, Eq)]
struct Reading {
    newest: Option<u64>,
    mark: Option<Status>,
    rows: usize,
    seen: Seen,
    fits: bool,
}

// The book behind a script; none where there was no memory for it.
fn book_behind(
    alloc: Global,
    script: &[&str],
) -> Result<Option<Book<Unkept, SimCloud>>, AllocError> {
    let script = joined(alloc, script)?;
    let mut source = MemSource::new(alloc, script.as_bytes(), 4096, &[])?;
    let mut sink = MemSink::new(alloc, 4096, &[])?;
    let Outcome { status: _, end } = drives(alloc, &mut source, &mut sink)?;
    match end {
        End::Book(book) => Ok(Some(book)),
        End::Unopened(_keeper, _cloud) => Ok(None),
    }
}

// The newest plan of a stack, if it has one.
fn newest_plan(entries: &[Entry], stack: &StackName) -> Result<Option<Plan>, AllocError> {
    match newest(entries, stack)? {
        Some(latest) => Ok(latest.plan),
        None => Ok(None),
    }
}

// The number of the newest traversal.
fn number_of(entries: &[Entry], stack: &StackName) -> Result<Option<u64>, AllocError> {
    match newest(entries, stack)? {
        Some(latest) => Ok(Some(latest.trav().get())),
        None => Ok(None),
    }
}

// The status that its mark gives.
fn status_of(entries: &[Entry], stack: &StackName) -> Result<Option<Status>, AllocError> {
    match mark_of(entries, stack)? {
        Some(mark) => Ok(Some(mark.status())),
        None => Ok(None),
    }
}

// How many rows stand.
fn rows_of(alloc: Global, entries: &[Entry]) -> Result<usize, AllocError> {
    let rows = stored(alloc, entries)?;
    Ok(rows.as_slice().len())
}

// In which states the token may be.
fn seen_in(alloc: Global, entries: &[Entry], token: &Token) -> Result<Seen, AllocError> {
    let states = could(alloc, entries, token)?;
    Ok(seen_of(states.as_slice()))
}

fn seen_of(states: &[Option<Living>]) -> Seen {
    match states {
        [None] => Seen::Absent,
        [Some(it)] => {
            if it.facts().is_some() {
                Seen::Ready
            } else {
                Seen::Alive
            }
        }
        _ => Seen::Unsure,
    }
}

// Whether the stack fits a plan, where there is one.
fn fits_plan(
    alloc: Global,
    entries: &[Entry],
    stack: &StackName,
    plan: &Option<Plan>,
) -> Result<bool, AllocError> {
    match plan {
        Some(plan) => fits(alloc, entries, stack, plan),
        None => Ok(false),
    }
}

// Whether the stack fits its newest plan.
fn fits_newest(alloc: Global, entries: &[Entry], stack: &StackName) -> Result<bool, AllocError> {
    let plan = newest_plan(entries, stack)?;
    fits_plan(alloc, entries, stack, &plan)
}

// What is read of a history.
fn read(alloc: Global, entries: &[Entry], token: &Token) -> Result<Reading, AllocError> {
    Ok(Reading {
        newest: number_of(entries, &token.stack)?,
        mark: status_of(entries, &token.stack)?,
        rows: rows_of(alloc, entries)?,
        seen: seen_in(alloc, entries, token)?,
        fits: fits_newest(alloc, entries, &token.stack)?,
    })
}

// What is read behind a script; none where there was no memory.
fn read_behind(alloc: Global, script: &[&str], token: &Token) -> Option<Reading> {
    let book = book_behind(alloc, script).ok()??;
    let seen = read(alloc, book.entries(), token);
    let _ = book.give_back();
    seen.ok()
}

// What is read behind one script of the newest plan of another; none where there was no memory.
fn fits_behind(alloc: Global, script: &[&str], other: &[&str], stack: &StackName) -> Option<bool> {
    let plan = plan_behind(alloc, other, stack)?;
    let book = book_behind(alloc, script).ok()??;
    let fits = fits_plan(alloc, book.entries(), stack, &plan);
    let _ = book.give_back();
    fits.ok()
}

// The newest plan behind a script.
fn plan_behind(alloc: Global, script: &[&str], stack: &StackName) -> Option<Option<Plan>> {
    let book = book_behind(alloc, script).ok()??;
    let plan = newest_plan(book.entries(), stack);
    let _ = book.give_back();
    plan.ok()
}

// A name, a script, and what is read of the traversal 1 of `s` and of the resource of its one row, where
// there is one: its mark, in which states the resource may be, and whether it fits the plan.
const READINGS: &[(&str, &[&str], Option<(Status, Seen, bool)>)] = &[
    ("nothing", &[], None),
    ("a line that is no command", &["bogus\n"], None),
    (
        "created",
        &[CREATE],
        Some((Status::InProgress, Seen::Absent, false)),
    ),
    (
        "begun",
        &[CREATE, "run 2\n"],
        Some((Status::InProgress, Seen::Absent, false)),
    ),
    (
        "asked",
        &[CREATE, "run 3\n"],
        Some((Status::InProgress, Seen::Alive, false)),
    ),
    (
        "polled",
        &[CREATE, "run 4\n"],
        Some((Status::InProgress, Seen::Ready, true)),
    ),
    (
        "finished",
        &[CREATE, "run 5\n"],
        Some((Status::Complete, Seen::Ready, true)),
    ),
    (
        "idle",
        &[CREATE, "run 9\n"],
        Some((Status::Complete, Seen::Ready, true)),
    ),
    (
        "listed",
        &[CREATE, "run\nresources s\n"],
        Some((Status::Complete, Seen::Ready, true)),
    ),
    (
        "created again",
        &[CREATE, CREATE, "run 5\n"],
        Some((Status::Complete, Seen::Ready, true)),
    ),
    (
        "created again, and another stack listed",
        &[CREATE, CREATE, "resources t\n"],
        Some((Status::InProgress, Seen::Absent, false)),
    ),
];

// The reading of a row of the table.
fn reading_of(read: &Option<(Status, Seen, bool)>) -> Reading {
    match read {
        Some((mark, seen, fits)) => Reading {
            newest: Some(1),
            mark: Some(*mark),
            rows: 1,
            seen: *seen,
            fits: *fits,
        },
        None => Reading {
            newest: None,
            mark: None,
            rows: 0,
            seen: Seen::Absent,
            fits: false,
        },
    }
}

#[test]
fn histories_of_scripts_are_read(rt: HostRuntime) -> Result<(), Fail> {
    let token = Token::read(rt.alloc(), b"s/a/1")?.ok_or("a token")?;
    for (name, script, read) in READINGS {
        let seen = read_behind(rt.alloc(), script, &token);
        assert_eq!(rt; seen, Some(reading_of(read)), "{}", name);
    }
    Ok(())
}

// Creates of no resource, and of one whose size is a function, what that comes to, another, or a fault.
const EMPTY: &str = "create s {\"template\":{\"heat_template_version\":\"2018-08-31\"}}\n";

const JOINED: &str = "create s {\"template\":{\"heat_template_version\":\"2018-08-31\",\
    \"resources\":{\"a\":{\"type\":\"Test::Box\",\"properties\":{\"size\":{\"list_join\":[\"-\",[\"a\",\"b\"]]}}}}}}\n";

const WRITTEN: &str = "create s {\"template\":{\"heat_template_version\":\"2018-08-31\",\
    \"resources\":{\"a\":{\"type\":\"Test::Box\",\"properties\":{\"size\":\"a-b\"}}}}}\n";

const UNLIKE: &str = "create s {\"template\":{\"heat_template_version\":\"2018-08-31\",\
    \"resources\":{\"a\":{\"type\":\"Test::Box\",\"properties\":{\"size\":{\"list_join\":[\"\",[\"a\",\"b\"]]}}}}}}\n";

const FAULTY: &str = "create s {\"template\":{\"heat_template_version\":\"2018-08-31\",\
    \"resources\":{\"a\":{\"type\":\"Test::Box\",\"properties\":{\"size\":{\"str_split\":[\"-\",\"a-b\",2]}}}}}}\n";

// A name, a script, the script of another plan, and whether what the first leaves fits that.
const FITS: &[(&str, &[&str], &[&str], bool)] = &[
    ("nothing, of nothing", &[], &[EMPTY], true),
    ("nothing, of a resource", &[], &[WRITTEN], false),
    ("as it is written", &[JOINED, "run\n"], &[JOINED], true),
    ("what it comes to", &[JOINED, "run\n"], &[WRITTEN], true),
    ("another", &[JOINED, "run\n"], &[UNLIKE], false),
    ("a fault", &[JOINED, "run\n"], &[FAULTY], false),
];

#[test]
fn what_a_function_comes_to_fits(rt: HostRuntime) -> Result<(), Fail> {
    let stack = StackName::read(rt.alloc(), b"s")?.ok_or("a name")?;
    for (name, script, other, is) in FITS {
        let seen = fits_behind(rt.alloc(), script, other, &stack);
        assert_eq!(rt; seen, Some(*is), "{}", name);
    }
    Ok(())
}
