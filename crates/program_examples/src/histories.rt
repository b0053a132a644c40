//! Histories with what each of their entries adds to the text, by the plain text and by a reporter.
use crate::parts::row;
use crate::says::{Say, said};
use core_state::{Actor, Change, Entry, ShowWhat, State};
use heat_plan::{Act, Status};
use heat_value::Text;
use report::{Reporter, lines_of};
use std::process::Abort;

// The name of a history, and its entries, each with what it adds.
const HISTORIES: &[(&str, &[(Say, &str)])] = &[
    (
        "two rows, one of them gone",
        &[
            (Say::Begins(Act::Create), "stack s 1 CREATE_IN_PROGRESS\n"),
            (
                Say::Sets(2, "a", Act::Create, Status::Failed),
                "resource s a 2 CREATE_FAILED\n",
            ),
            (
                Say::Sets(1, "a", Act::Create, Status::Complete),
                "resource s a 1 CREATE_COMPLETE\n",
            ),
            (Say::Shows(ShowWhat::Resources), LISTED),
            (Say::Purges(2), "resource s a 2 DELETE_COMPLETE\n"),
            (Say::Completes(Act::Create), "stack s 2 CREATE_COMPLETE\n"),
            (Say::Shows(ShowWhat::Status), "stack s 2 CREATE_COMPLETE\n"),
        ],
    ),
    (
        "a row that is purged twice",
        &[
            (
                Say::Sets(1, "a", Act::Create, Status::Complete),
                "resource s a 1 CREATE_COMPLETE\n",
            ),
            (Say::Purges(1), "resource s a 1 DELETE_COMPLETE\n"),
            (Say::Purges(1), ""),
        ],
    ),
    (
        "a stack that isn't seen",
        &[
            (Say::Shows(ShowWhat::Status), ""),
            (Say::Shows(ShowWhat::Outputs), ""),
            (
                Say::BeginsWithOutputs(Act::Create),
                "stack s 1 CREATE_IN_PROGRESS\n",
            ),
            (Say::Completes(Act::Delete), "stack s 2 DELETE_COMPLETE\n"),
            (Say::Shows(ShowWhat::Status), ""),
        ],
    ),
    (
        "a stack without a plan",
        &[
            (Say::Begins(Act::Delete), "stack s 1 DELETE_IN_PROGRESS\n"),
            (Say::Shows(ShowWhat::Outputs), ""),
        ],
    ),
    (
        "outputs beside a row that is replaced and one at DELETE",
        &[
            (
                Say::BeginsWithOutputs(Act::Create),
                "stack s 1 CREATE_IN_PROGRESS\n",
            ),
            (
                Say::SetsReplaced(1, "a", 3, "old"),
                "resource s a 1 UPDATE_COMPLETE\n",
            ),
            (
                Say::SetsReady(2, "b", Act::Delete, "gone"),
                "resource s b 2 DELETE_COMPLETE\n",
            ),
            (
                Say::SetsReady(3, "a", Act::Create, "new"),
                "resource s a 3 CREATE_COMPLETE\n",
            ),
            (
                Say::Shows(ShowWhat::Outputs),
                "output gone null\noutput id [\"x\",\"new\"]\noutput z \"new\"\n",
            ),
        ],
    ),
    (
        "an update that is broken",
        &[(
            Say::Breaks,
            "stack s 2 UPDATE_FAILED a 3 update broken no_host\n",
        )],
    ),
    (
        "a restart, and the end of the input",
        &[(Say::Restarts, "restart 7\n"), (Say::Closes, "")],
    ),
];

const LISTED: &str = "row 1 a Test::Box CREATE_COMPLETE id - replaces - replaced_by -
row 2 a Test::Box CREATE_FAILED id - replaces - replaced_by -
";

// Puts one entry more behind a history: what it adds by the plain text, and by a reporter.
fn adds(
    rt: &(impl Abort + AllocGlobal),
    opening: &State,
    all: &mut Vec<Entry>,
    reporter: &mut Reporter,
    say: Say,
) -> (Text, Text) {
    let from = all.len();
    let what = said(rt, say);
    let by = Actor::Main;
    all.push(Entry { by, what }).expect(rt, "memory");
    let plain = lines_of(rt.alloc(), opening, all, from).expect(rt, "memory");
    let told = reporter.add(&all[from..]).expect(rt, "memory");
    (plain, told)
}

// Compares what the entries add behind this opening.
fn tells(rt: &(impl Abort + AllocGlobal), name: &str, opening: &State, entries: &[(Say, &str)]) {
    let mut all = Vec::new(rt.alloc());
    let mut reporter = Reporter::new(rt.alloc(), opening).expect(rt, "memory");
    for (say, wanted) in entries {
        let (plain, told) = adds(rt, opening, &mut all, &mut reporter, *say);
        assert_eq!(rt; plain.as_str(), *wanted, "{}", name);
        assert_eq!(rt; told.as_str(), *wanted, "{}, by the reporter", name);
    }
}

#[test]
fn each_entry_adds_its_lines(rt: HostRuntime) {
    let opening = State::new(rt.alloc());
    for (name, entries) in HISTORIES {
        tells(&rt, name, &opening, entries);
    }
}

#[test]
fn rows_of_the_opening_state_are_seen(rt: HostRuntime) {
    let mut opening = State::new(rt.alloc());
    let first = row(&rt, 1, "a", Act::Create, Status::Complete);
    let put = opening.apply(rt.alloc(), Change::PutRow(first));
    put.ok().expect(&rt, "a change that applies");
    let again = Say::Sets(1, "a", Act::Create, Status::Complete);
    tells(&rt, "set again", &opening, &[(again, "")]);
}
