//! What no clause says: objects from outside, in single quotes, read to the end.
use crate::cases::{Asked, Case, all_told, value_of};
use heat_value::Value;
use hot_tree::{Param, Parts, Res};
use std::alloc::{AllocError, Global};

// The text of a value that may be missing, in single quotes.
fn text_of(alloc: Global, value: &Option<Value>) -> Result<String, AllocError> {
    match value {
        Some(value) => value.text(alloc)?.as_str().replace(alloc, "\"", "'"),
        None => String::from_str(alloc, "-"),
    }
}

// A parameter: its name, its default, how many constraints it has.
fn param_words(alloc: Global, param: &Param) -> Result<String, AllocError> {
    let default = text_of(alloc, &param.default)?;
    let (name, count) = (param.name.as_str(), param.constraints.len());
    format!(in alloc; "{} {} {}", name, default.as_str(), count)
}

// A resource: its name, its kind, its policy, how many properties it has, its condition.
fn res_words(alloc: Global, res: &Res) -> Result<String, AllocError> {
    let cond = text_of(alloc, &res.cond)?;
    let count = res.props.as_slice().len();
    let (name, kind, policy) = (res.name.as_str(), res.kind.as_str(), res.policy.as_str());
    format!(in alloc; "{} {} {} {} {}", name, kind, policy, count, cond.as_str())
}

// The name and a stop.
fn add(words: &mut String, text: &str) -> Result<(), AllocError> {
    words.push_str(text)?;
    words.push_str("; ")
}

fn add_param(alloc: Global, words: &mut String, param: &Param) -> Result<(), AllocError> {
    add(words, param_words(alloc, param)?.as_str())
}

fn add_res(alloc: Global, words: &mut String, res: &Res) -> Result<(), AllocError> {
    add(words, res_words(alloc, res)?.as_str())
}

// All parts in words, a `; ` behind each.
fn words_of(alloc: Global, parts: &Parts) -> Result<String, AllocError> {
    let mut words = String::new(alloc);
    for param in parts.params.as_slice() {
        add_param(alloc, &mut words, param)?;
    }
    for res in parts.resources.as_slice() {
        add_res(alloc, &mut words, res)?;
    }
    for out in parts.outputs.as_slice() {
        add(&mut words, out.name.as_str())?;
    }
    Ok(words)
}

// The parts of an object in single quotes, in words.
#[derive(Clone, Copy)]
struct PartsOf(&'static str);

impl Asked for PartsOf {
    fn told(self, alloc: Global) -> Result<String, AllocError> {
        match &value_of(alloc, self.0)? {
            Value::Fields(fields) => words_of(alloc, &Parts::of(alloc, fields)?),
            _ => Err(AllocError),
        }
    }
}

const PARTS: &[Case<PartsOf>] = &[
    (PartsOf("{}"), ""),
    (PartsOf("{'parameters':null,'resources':[]}"), ""),
    (
        PartsOf("{'parameters':{'b':{'default':null,'type':'string'},'a':{'default':1}}}"),
        "a 1 0; b - 0; ",
    ),
    (
        PartsOf(
            "{'parameters':{'a':{'constraints':[{'range':{'min':1}},{'description':''},{'modulo':1}]}}}",
        ),
        "a - 2; ",
    ),
    (
        PartsOf(
            "{'resources':{'r':{'type':'T'},'q':{'deletion_policy':'retain','properties':{'p':1}}}}",
        ),
        "q  retain 1 -; r T Delete 0 -; ",
    ),
    (
        PartsOf(
            "{'resources':{'r':{'condition':null,'properties':null,'type':'T'}},'outputs':{'o':{}}}",
        ),
        "r T Delete 0 null; o; ",
    ),
];

#[test]
fn parts_are_read(rt: HostRuntime) -> Result<(), AllocError> {
    all_told(&rt, PARTS)
}
