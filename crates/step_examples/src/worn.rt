//! Steps where a number or a key is worn out: each that would draw the number or raise the key is refused,
//! and not for want of memory.

use crate::asks::Ask;
use crate::cases::{Case, try_all};
use crate::lines::{CREATE, CREATE_TWO, CREATE_X, UPDATE, UPDATE_Y};
use crate::wear::Worn;
use sample_turns::Reply;
use std::test::Fail;

const NUMBERS: &[Case] = &[
    Case {
        name: "create",
        before: &[Ask::Wear(Worn::Travs)],
        step: Ask::Line(CREATE),
        gives: "E15",
    },
    Case {
        name: "update",
        before: &[Ask::Line(CREATE), Ask::Wear(Worn::Letters)],
        step: Ask::Line(UPDATE),
        gives: "E15",
    },
    Case {
        name: "delete",
        before: &[Ask::Line(CREATE), Ask::Wear(Worn::Travs)],
        step: Ask::Line("delete s"),
        gives: "E15",
    },
    Case {
        name: "cancel",
        before: &[Ask::Line(CREATE), Ask::Wear(Worn::Travs)],
        step: Ask::Line("cancel s"),
        gives: "E15",
    },
    Case {
        name: "begin_replaced",
        before: &[
            Ask::Line("start"),
            Ask::Line(CREATE_X),
            Ask::Run(5),
            Ask::Line(UPDATE_Y),
            Ask::Run(1),
            Ask::Wear(Worn::Rows),
        ],
        step: Ask::Turn(Reply::Works),
        gives: "E15",
    },
    Case {
        name: "finish",
        before: &[
            Ask::Line("start"),
            Ask::Line(CREATE_TWO),
            Ask::Run(4),
            Ask::Wear(Worn::Letters),
        ],
        step: Ask::Turn(Reply::Works),
        gives: "E15",
    },
    Case {
        name: "takeover_fresh",
        before: &[
            Ask::Line("start"),
            Ask::Line("start"),
            Ask::Line(CREATE),
            Ask::Run(3),
            Ask::Line("stop 1"),
            Ask::Wear(Worn::Letters),
        ],
        step: Ask::Line("turn 2"),
        gives: "E15",
    },
    Case {
        name: "enlist",
        before: &[Ask::Wear(Worn::Engines)],
        step: Ask::Line("start"),
        gives: "E15",
    },
    Case {
        name: "restart",
        before: &[Ask::Wear(Worn::Engines)],
        step: Ask::Restart,
        gives: "E15",
    },
];

#[test]
fn no_step_draws_a_worn_number(rt: HostRuntime) -> Result<(), Fail> {
    try_all(&rt, NUMBERS)
}

const KEYS: &[Case] = &[
    Case {
        name: "take_free: an update node",
        before: &[Ask::Line("start"), Ask::Line(CREATE), Ask::Wear(Worn::Key)],
        step: Ask::Turn(Reply::Works),
        gives: "E15",
    },
    Case {
        name: "take_free: a clean-up node",
        before: &[
            Ask::Line("start"),
            Ask::Line(CREATE),
            Ask::Run(5),
            Ask::Line("delete s"),
            Ask::Wear(Worn::Key),
        ],
        step: Ask::Turn(Reply::Works),
        gives: "E15",
    },
    Case {
        name: "take_stolen",
        before: &[
            Ask::Line("start"),
            Ask::Line("start"),
            Ask::Line(CREATE),
            Ask::Run(3),
            Ask::Line(UPDATE),
            Ask::Line("stop 1"),
            Ask::Wear(Worn::Key),
        ],
        step: Ask::Line("turn 2"),
        gives: "E15",
    },
    Case {
        name: "begin_overrun",
        before: &[
            Ask::Line("start"),
            Ask::Line(CREATE),
            Ask::Run(1),
            Ask::Line(UPDATE),
            Ask::Wear(Worn::Key),
        ],
        step: Ask::Turn(Reply::Works),
        gives: "E15",
    },
    Case {
        name: "begin_faulted",
        before: &[
            Ask::Line("start"),
            Ask::Line(CREATE),
            Ask::Run(1),
            Ask::Wear(Worn::Key),
        ],
        step: Ask::Turn(Reply::Faults),
        gives: "E15",
    },
    Case {
        name: "begin_failed: by a second letter that an overrun job sent",
        before: &[
            Ask::Line("start"),
            Ask::Line(CREATE),
            Ask::Run(1),
            Ask::Line(UPDATE),
            Ask::Run(3),
            Ask::Turn(Reply::Fails),
            Ask::Run(1),
            Ask::Wear(Worn::Key),
        ],
        step: Ask::Turn(Reply::Works),
        gives: "E15",
    },
    Case {
        name: "begin_replaced",
        before: &[
            Ask::Line("start"),
            Ask::Line(CREATE_X),
            Ask::Run(5),
            Ask::Line(UPDATE_Y),
            Ask::Run(1),
            Ask::Wear(Worn::Key),
        ],
        step: Ask::Turn(Reply::Works),
        gives: "E15",
    },
    Case {
        name: "clean_stuck: by a second letter that an overrun job sent",
        before: &[
            Ask::Line("start"),
            Ask::Line(CREATE),
            Ask::Run(5),
            Ask::Line("delete s"),
            Ask::Run(1),
            Ask::Line("delete s"),
            Ask::Run(3),
            Ask::Turn(Reply::Fails),
            Ask::Run(1),
            Ask::Wear(Worn::Key),
        ],
        step: Ask::Turn(Reply::Works),
        gives: "E15",
    },
    Case {
        name: "ask_failed",
        before: &[
            Ask::Line("start"),
            Ask::Line(CREATE),
            Ask::Run(2),
            Ask::Wear(Worn::Key),
        ],
        step: Ask::Turn(Reply::Fails),
        gives: "E15",
    },
    Case {
        name: "poll_failed",
        before: &[
            Ask::Line("start"),
            Ask::Line(CREATE),
            Ask::Run(3),
            Ask::Wear(Worn::Key),
        ],
        step: Ask::Turn(Reply::Fails),
        gives: "E15",
    },
    Case {
        name: "finish_last",
        before: &[
            Ask::Line("start"),
            Ask::Line(CREATE),
            Ask::Run(4),
            Ask::Wear(Worn::Key),
        ],
        step: Ask::Turn(Reply::Works),
        gives: "E15",
    },
    Case {
        name: "takeover_fresh",
        before: &[
            Ask::Line("start"),
            Ask::Line("start"),
            Ask::Line(CREATE),
            Ask::Run(3),
            Ask::Line("stop 1"),
            Ask::Wear(Worn::Key),
        ],
        step: Ask::Line("turn 2"),
        gives: "E15",
    },
    Case {
        name: "begin_init: it raises no key",
        before: &[
            Ask::Line("start"),
            Ask::Line(CREATE),
            Ask::Run(1),
            Ask::Wear(Worn::Key),
        ],
        step: Ask::Turn(Reply::Works),
        gives: "rm",
    },
    Case {
        name: "begin_init: the key stays as it is",
        before: &[
            Ask::Line("start"),
            Ask::Line(CREATE),
            Ask::Run(1),
            Ask::Wear(Worn::Key),
            Ask::Run(1),
        ],
        step: Ask::Turn(Reply::Works),
        gives: "E15",
    },
];

#[test]
fn no_turn_raises_a_worn_key(rt: HostRuntime) -> Result<(), Fail> {
    try_all(&rt, KEYS)
}
