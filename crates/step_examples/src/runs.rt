//! Runs in which each case of the steps' tables is made at least once, a run a case. They come out the same
//! where one allocation fails: a step that finds none is asked for once more, of the same state.

use crate::asks::Ask;
use crate::cases::{Case, try_all};
use crate::lines::{
    CREATE, CREATE_BACK, CREATE_KEPT, CREATE_TWO, CREATE_X, UPDATE, UPDATE_2, UPDATE_B, UPDATE_Y,
};
use sample_turns::Reply;
use std::test::Fail;

const UPDATES: &[Case] = &[
    Case {
        name: "an update in place, to the same, and by a replacement, with all clean-ups",
        before: &[
            Ask::Line("start"),
            Ask::Line(CREATE),
            Ask::Run(5),
            Ask::Line(UPDATE_2),
            Ask::Run(3),
            Ask::Turn(Reply::Waits),
            Ask::Run(5),
            Ask::Line(UPDATE_2),
            Ask::Run(6),
            Ask::Line(UPDATE_Y),
            Ask::Run(9),
        ],
        step: Ask::Turn(Reply::Works),
        gives: "m+",
    },
    Case {
        name: "an update that overtakes a job at its begin and one at its end, and a cancel",
        before: &[
            Ask::Line("start"),
            Ask::Line(CREATE),
            Ask::Run(1),
            Ask::Line(UPDATE),
            Ask::Run(4),
            Ask::Line(UPDATE_B),
            Ask::Run(2),
            Ask::Line("cancel s"),
            Ask::Run(11),
        ],
        step: Ask::Turn(Reply::Works),
        gives: "m+",
    },
    Case {
        name: "a failed row and a second letter for it, and a replacement of it that a quota refuses",
        before: &[
            Ask::Line("start"),
            Ask::Line(CREATE),
            Ask::Run(1),
            Ask::Line(UPDATE),
            Ask::Run(4),
            Ask::Turn(Reply::Breaks),
            Ask::Run(2),
            Ask::Line(UPDATE_Y),
            Ask::Run(2),
        ],
        step: Ask::Turn(Reply::Quota),
        gives: "?rmq",
    },
];

#[test]
fn updates_are_made(rt: HostRuntime) -> Result<(), Fail> {
    try_all(&rt, UPDATES)
}

const ENDS: &[Case] = &[
    Case {
        name: "a create of two that fails at the second, and a delete of both",
        before: &[
            Ask::Line("start"),
            Ask::Line(CREATE_TWO),
            Ask::Run(7),
            Ask::Turn(Reply::Fails),
            Ask::Line("delete s"),
            Ask::Run(9),
        ],
        step: Ask::Turn(Reply::Works),
        gives: "m+",
    },
    Case {
        name: "a create with a fault, and its rollback",
        before: &[
            Ask::Line("start"),
            Ask::Line(CREATE_BACK),
            Ask::Run(1),
            Ask::Turn(Reply::Faults),
            Ask::Run(2),
        ],
        step: Ask::Turn(Reply::Works),
        gives: "m+",
    },
    Case {
        name: "an update that fails, and its rollback",
        before: &[
            Ask::Line("start"),
            Ask::Line(CREATE),
            Ask::Run(5),
            Ask::Line(UPDATE_2),
            Ask::Run(2),
        ],
        step: Ask::Turn(Reply::Fails),
        gives: "?rmfcm",
    },
    Case {
        name: "a delete that another overtakes, that fails, and a second letter for its row",
        before: &[
            Ask::Line("start"),
            Ask::Line(CREATE_X),
            Ask::Run(5),
            Ask::Line("delete s"),
            Ask::Run(1),
            Ask::Line("delete s"),
            Ask::Run(4),
            Ask::Turn(Reply::Fails),
            Ask::Run(1),
        ],
        step: Ask::Turn(Reply::Works),
        gives: "rm",
    },
    Case {
        name: "what is retained is released",
        before: &[
            Ask::Line("start"),
            Ask::Line(CREATE_KEPT),
            Ask::Run(5),
            Ask::Line("delete s"),
            Ask::Run(1),
        ],
        step: Ask::Turn(Reply::Works),
        gives: "lrm",
    },
];

#[test]
fn failures_and_deletes_are_made(rt: HostRuntime) -> Result<(), Fail> {
    try_all(&rt, ENDS)
}

const ENGINES: &[Case] = &[
    Case {
        name: "a stopped engine's job is taken over, and resumed to its end",
        before: &[
            Ask::Line("start"),
            Ask::Line("start"),
            Ask::Line(CREATE),
            Ask::Run(3),
            Ask::Line("stop 1"),
            Ask::Line("turn 2"),
            Ask::Line("turn 2"),
            Ask::Line("turn 2"),
            Ask::Line("turn 2"),
            Ask::Line("turn 2"),
        ],
        step: Ask::Line("turn 2"),
        gives: "rm+",
    },
    Case {
        name: "its overrun job is taken over behind a letter that was dropped",
        before: &[
            Ask::Line("start"),
            Ask::Line("start"),
            Ask::Line(CREATE),
            Ask::Run(3),
            Ask::Line(UPDATE),
            Ask::Line("turn 2"),
            Ask::Line("stop 1"),
        ],
        step: Ask::Line("turn 2"),
        gives: "rm",
    },
    Case {
        name: "its row is stolen, and replaced",
        before: &[
            Ask::Line("start"),
            Ask::Line("start"),
            Ask::Line(CREATE),
            Ask::Run(3),
            Ask::Line(UPDATE),
            Ask::Line("stop 1"),
            Ask::Line("turn 2"),
        ],
        step: Ask::Line("turn 2"),
        gives: "rm",
    },
    Case {
        name: "its job is taken over whose row is gone",
        before: &[
            Ask::Line("start"),
            Ask::Line("start"),
            Ask::Line(CREATE),
            Ask::Run(5),
            Ask::Line("delete s"),
            Ask::Run(4),
            Ask::Line("stop 1"),
            Ask::Line("turn 2"),
            Ask::Line("turn 2"),
            Ask::Line("turn 2"),
        ],
        step: Ask::Line("turn 2"),
        gives: "m+",
    },
    Case {
        name: "a restart puts three engines in the place of two: the last of them is live",
        before: &[Ask::Line("start"), Ask::Line("start"), Ask::Restart],
        step: Ask::Line("stop 5"),
        gives: "e",
    },
    Case {
        name: "a restart: no other engine is live",
        before: &[Ask::Line("start"), Ask::Line("start"), Ask::Restart],
        step: Ask::Line("stop 6"),
        gives: "E16",
    },
    Case {
        name: "a restart: the engines before it have stopped",
        before: &[Ask::Line("start"), Ask::Line("start"), Ask::Restart],
        step: Ask::Line("stop 2"),
        gives: "E16",
    },
    Case {
        name: "a restart: their jobs stay, and are taken over",
        before: &[
            Ask::Line("start"),
            Ask::Line("start"),
            Ask::Line(CREATE),
            Ask::Run(1),
            Ask::Restart,
        ],
        step: Ask::Line("turn 3"),
        gives: "rm",
    },
];

#[test]
fn engines_take_over(rt: HostRuntime) -> Result<(), Fail> {
    try_all(&rt, ENGINES)
}
