//! A plan of outputs alone.
use crate::parts::text;
use heat_plan::{ByName, Expression, Output, Parameters, Plan};
use heat_value::{Seq, Value};
use std::process::Abort;

// The names and values of the outputs.
const OUTPUTS: &[(&str, &[u8])] = &[
    ("gone", b"{\"get_resource\":\"b\"}"),
    ("id", b"[\"x\",{\"get_resource\":\"a\"}]"),
    ("z", b"{\"get_attr\":[\"a\",\"addr\"]}"),
];

/// The plan of the outputs `gone`, which reads `b`, and `id` and `z`, which read `a`.
pub(crate) fn plan(rt: &(impl Abort + AllocGlobal)) -> Plan {
    let mut all = Seq::new(rt.alloc());
    for (name, value) in OUTPUTS {
        all.push(output(rt, name, value)).expect(rt, "memory");
    }
    Plan::new(
        Seq::new(rt.alloc()),
        all,
        Parameters::new(rt.alloc()),
        ByName::new(rt.alloc()),
        ByName::new(rt.alloc()),
        Seq::new(rt.alloc()),
    )
}

// An output of this value.
fn output(rt: &(impl Abort + AllocGlobal), name: &str, value: &[u8]) -> Output {
    let value = Value::read(rt.alloc(), value).expect(rt, "JSON");
    let value = Expression::from_value(value).expect(rt, "shallow");
    Output {
        name: text(rt, name),
        value,
    }
}
