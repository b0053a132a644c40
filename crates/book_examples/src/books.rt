//! Looks that others overtake, a halted book, and updates over a judge.

use crate::asks::Ask;
use crate::cases::{Case, try_all};
use crate::orders::Order;
use std::test::Fail;

// A look behind a create and the taking of its letter is committed late, and a turn follows.
const LATE: &[Case] = &[
    Case {
        name: "nothing comes between",
        judged: None,
        asks: &[
            Ask::Order(Order::Create("size")),
            Ask::Turns(1),
            Ask::Calls(1),
            Ask::Turns(1),
        ],
        told: "+3s2s2s2",
    },
    Case {
        name: "an update comes between",
        judged: None,
        asks: &[
            Ask::Order(Order::Create("size")),
            Ask::Turns(1),
            Ask::Late(Order::Update("size")),
            Ask::Turns(1),
        ],
        told: "+3s2s0s2",
    },
    Case {
        name: "a delete comes between",
        judged: None,
        asks: &[
            Ask::Order(Order::Create("size")),
            Ask::Turns(1),
            Ask::Late(Order::Delete),
            Ask::Turns(1),
        ],
        told: "+3s2s0s2",
    },
    Case {
        name: "a stop comes between",
        judged: None,
        asks: &[
            Ask::Order(Order::Create("size")),
            Ask::Turns(1),
            Ask::Late(Order::Stop),
            Ask::Turns(1),
        ],
        told: "+3s2l0l0",
    },
];

#[test]
fn an_older_look_meets_the_fence(rt: HostRuntime) -> Result<(), Fail> {
    try_all(&rt, LATE)
}

// A create to its end, and two turns more.
const CALLS: &[Case] = &[
    Case {
        name: "by turns",
        judged: None,
        asks: &[Ask::Order(Order::Create("size")), Ask::Turns(7)],
        told: "+3s2s2s2s3s3i0i0",
    },
    Case {
        name: "by the three calls in a row",
        judged: None,
        asks: &[Ask::Order(Order::Create("size")), Ask::Calls(7)],
        told: "+3s2s2s2s3s3i0i0",
    },
];

#[test]
fn the_three_calls_in_a_row_are_a_turn(rt: HostRuntime) -> Result<(), Fail> {
    try_all(&rt, CALLS)
}

const HALTED: &[Case] = &[Case {
    name: "each call that would make a step wants memory",
    judged: None,
    asks: &[
        Ask::Order(Order::Halt),
        Ask::Order(Order::Create("size")),
        Ask::Order(Order::Stop),
        Ask::Order(Order::Enlist),
        Ask::Turns(1),
    ],
    told: "+0m0m0m0m0",
}];

#[test]
fn a_halted_book_makes_no_step(rt: HostRuntime) -> Result<(), Fail> {
    try_all(&rt, HALTED)
}

// A create to its end, an update, and all turns of that, with one behind them.
const JUDGED: &[Case] = &[
    Case {
        name: "in place by the plan, not by the judge",
        judged: Some("zone"),
        asks: &[
            Ask::Order(Order::Create("size")),
            Ask::Turns(5),
            Ask::Order(Order::Update("size")),
            Ask::Turns(9),
        ],
        told: "+3s2s2s2s3s3+2s2s2s2s3s2s2s1s3i0",
    },
    Case {
        name: "in place by the judge, not by the plan",
        judged: Some("size"),
        asks: &[
            Ask::Order(Order::Create("zone")),
            Ask::Turns(5),
            Ask::Order(Order::Update("zone")),
            Ask::Turns(11),
        ],
        told: "+3s2s2s2s3s3+2s2s2s2s3s2s2s2s2s3s2i0",
    },
];

#[test]
fn the_plan_s_properties_decide(rt: HostRuntime) -> Result<(), Fail> {
    try_all(&rt, JUDGED)
}
