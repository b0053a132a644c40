//! What the properties of an item resolve to, the names that are looked up for them, and the names that a
//! value and a map of properties need.
use crate::cases::{Case, Teller, all_told, value_of, value_words};
use crate::plans::{both_known, eval_fault_words, name_of, plan_of, properties_of, props_of};
use heat_plan::{Item, Needs, Properties};
use heat_value::{Text, TryCopy, Value};
use hot_eval::{looked_up, needs_of, needs_of_props, resolve};
use sample_plans::bare_item;
use std::alloc::{AllocError, Global};

// The item r of these properties.
fn item_of(alloc: Global, props: Properties) -> Result<Item, AllocError> {
    let mut item = bare_item(alloc, name_of(alloc, "r")?)?;
    item.props = props;
    Ok(item)
}

// What an item's properties resolve to, in words.
fn outcome_of(alloc: Global, item: &Item) -> Result<String, AllocError> {
    let plan = plan_of(alloc)?;
    let known = both_known(alloc)?;
    match resolve(alloc, &plan, item, known.as_slice()) {
        Ok(props) => value_words(alloc, &Value::Fields(props.as_props().copy()?)),
        Err(fault) => eval_fault_words(alloc, &fault),
    }
}

// What the properties that are given resolve to, or the fault.
struct Resolved;

impl Teller for Resolved {
    fn told(&self, alloc: Global, given: &str) -> Result<String, AllocError> {
        let item = item_of(alloc, properties_of(alloc, given)?)?;
        outcome_of(alloc, &item)
    }
}

const RESOLVED: &[Case] = &[
    ("{}", "{}"),
    ("{'get_param':'p'}", "{'get_param':'p'}"),
    ("{'a':{'get_param':'p'},'b':1}", "{'a':'x','b':1}"),
    (
        "{'size':{'str_split':[',',{'get_attr':['a','addr']},5]}}",
        "F02 ['resources','r','properties','size']",
    ),
    (
        "{'b':[{'get_file':'g'}],'a':{'get_param':'q'}}",
        "F01 ['resources','r','properties','a']",
    ),
];

#[test]
fn properties_are_resolved(rt: HostRuntime) -> Result<(), AllocError> {
    all_told(&rt, &Resolved, RESOLVED)
}

// The names of these texts, parted by commas.
fn texts_listed(alloc: Global, names: &[Text]) -> Result<String, AllocError> {
    let mut words = String::new(alloc);
    for name in names {
        words.push_str(name.as_str())?;
        words.push_str(",")?;
    }
    Ok(words)
}

// The names that the evaluation of an item's properties looks up.
struct LookedUp;

impl Teller for LookedUp {
    fn told(&self, alloc: Global, given: &str) -> Result<String, AllocError> {
        let item = item_of(alloc, properties_of(alloc, given)?)?;
        let plan = plan_of(alloc)?;
        let known = both_known(alloc)?;
        let names = looked_up(alloc, &plan, &item, known.as_slice())?;
        texts_listed(alloc, names.as_slice())
    }
}

// In order, each as often as it is looked up, none of a branch that isn't chosen, up to the first fault.
const LOOKED_UP: &[Case] = &[
    ("{'a':1,'b':['x',null]}", ""),
    (
        "{'a':[{'get_attr':['b','x']},{'get_resource':'a'}],'b':{'get_resource':'b'}}",
        "b,a,b,",
    ),
    (
        "{'a':{'if':['on',{'get_resource':'t'},{'get_resource':'f'}]}}",
        "t,",
    ),
    (
        "{'a':{'if':['off',{'get_resource':'t'},{'get_resource':'f'}]}}",
        "f,",
    ),
    ("{'a':{'get_resource':'gone'}}", "gone,"),
    (
        "{'a':{'get_resource':'a'},'b':{'get_file':'g'},'c':{'get_resource':'c'}}",
        "a,",
    ),
    (
        "{'a':{'repeat':{'template':{'get_resource':'%x%'},'for_each':{'%x%':['a','b']}}}}",
        "a,b,",
    ),
    ("{'get_resource':'a'}", ""),
];

#[test]
fn names_are_looked_up(rt: HostRuntime) -> Result<(), AllocError> {
    all_told(&rt, &LookedUp, LOOKED_UP)
}

// The names, parted by commas.
fn listed(alloc: Global, needs: &Needs) -> Result<String, AllocError> {
    let mut words = String::new(alloc);
    for name in needs.as_slice() {
        words.push_str(name.as_str())?;
        words.push_str(",")?;
    }
    Ok(words)
}

// The names that the value needs.
struct Needed;

impl Teller for Needed {
    fn told(&self, alloc: Global, given: &str) -> Result<String, AllocError> {
        match value_of(alloc, given)? {
            Some(value) => listed(alloc, &needs_of(alloc, &value)?),
            None => String::from_str(alloc, "no value"),
        }
    }
}

const NEEDED: &[Case] = &[
    ("{'a':{'get_resource':'n'}}", "n,"),
    (
        "[{'get_attr':['b','x']},{'get_resource':'c'},{'get_attr':['a']},{'get_resource':'b'}]",
        "a,b,c,",
    ),
    (
        "{'if':['c',{'get_resource':'t'},{'get_resource':'f'}]}",
        "f,t,",
    ),
    ("{'get_attr':['a','x',{'get_resource':'b'}]}", "a,b,"),
    (
        "{'repeat':{'template':{'get_resource':'a'},'for_each':{}}}",
        "a,",
    ),
    (
        "[{'get_resource':'a','x':1},{'get_resource':5},{'get_resource':'a b'},{'get_attr':[5]}]",
        "",
    ),
];

#[test]
fn values_have_needs(rt: HostRuntime) -> Result<(), AllocError> {
    all_told(&rt, &Needed, NEEDED)
}

// The names that a map of properties needs.
struct NeededUnder;

impl Teller for NeededUnder {
    fn told(&self, alloc: Global, given: &str) -> Result<String, AllocError> {
        let props = props_of(alloc, given)?;
        listed(alloc, &needs_of_props(alloc, &props)?)
    }
}

// A property's own name is no function.
const NEEDED_UNDER: &[Case] = &[
    ("{'get_resource':'a','x':{'get_resource':'b'}}", "b,"),
    ("{'get_resource':'a'}", ""),
];

#[test]
fn properties_have_needs(rt: HostRuntime) -> Result<(), AllocError> {
    all_told(&rt, &NeededUnder, NEEDED_UNDER)
}
