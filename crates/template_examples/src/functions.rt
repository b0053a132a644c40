//! Values and conditions with functions in them, in single quotes, among the parameter `p` and the condition
//! `c`: each function with a right argument and with a wrong one.
use crate::cases::{Case, Teller, all_told, flaw_words, value_of};
use heat_value::{Props, Text, Value};
use hot_functions::{Place, is_condition, reference_in, value_flaw};
use std::alloc::{AllocError, Global};

// An object with one key.
fn just(alloc: Global, key: &str) -> Result<Props, AllocError> {
    let mut props = Props::new(alloc);
    props.put(Text::from_str(alloc, key)?, Value::Null)?;
    Ok(props)
}

// What is wrong with a value at a place.
fn judged(alloc: Global, place: Place, value: &Value) -> Result<String, AllocError> {
    let params = just(alloc, "p")?;
    let conds = just(alloc, "c")?;
    flaw_words(alloc, &value_flaw(alloc, &params, &conds, place, value)?)
}

impl Teller for Place {
    fn told(&self, alloc: Global, given: &str) -> Result<String, AllocError> {
        match value_of(alloc, given)? {
            Some(value) => judged(alloc, *self, &value),
            None => String::from_str(alloc, "no value"),
        }
    }
}

const VALUES: &[Case] = &[
    ("[1,'x',null,{'a':{'get_param':'p'}}]", "right"),
    ("{'get_param':5}", "H22 ['get_param']"),
    ("{'get_param':'q'}", "H24 ['get_param']"),
    ("{'get_param':['q',{'get_param':5}]}", "H24 ['get_param',0]"),
    (
        "{'get_param':['p',{'get_param':[]}]}",
        "H22 ['get_param',1,'get_param']",
    ),
    ("{'get_param':'OS::stack_id'}", "right"),
    ("{'get_param':5,'other':1}", "right"),
    ("{'get_resource':['r']}", "H22 ['get_resource']"),
    ("{'get_attr':['r']}", "right"),
    ("{'get_attr':['r',{'get_param':'p'}]}", "H22 ['get_attr']"),
    ("{'get_attr':['r','a',{'get_param':'p'}]}", "right"),
    ("{'get_file':{}}", "H22 ['get_file']"),
    ("{'list_join':[',']}", "H22 ['list_join']"),
    ("{'list_join':[',',5]}", "right"),
    ("{'str_split':[',','a',0,1]}", "H22 ['str_split']"),
    ("{'str_replace':{'template':'a'}}", "H22 ['str_replace']"),
    ("{'str_replace':{'get_param':'p'}}", "H22 ['str_replace']"),
    (
        "{'str_replace_strict':{'params':{'get_param':'q'},'template':1}}",
        "H24 ['str_replace_strict','params','get_param']",
    ),
    ("{'repeat':{'for_each':[],'template':1}}", "H22 ['repeat']"),
    (
        "{'repeat':{'for_each':{'get_param':'p'},'permutations':1,'template':{'get_param':'q'}}}",
        "H24 ['repeat','template','get_param']",
    ),
    (
        "{'repeat':{'for_each':{},'template':1,'zoo':1}}",
        "H22 ['repeat']",
    ),
    ("{'digest':['md5']}", "H22 ['digest']"),
    ("{'map_merge':{'get_param':'p'}}", "H22 ['map_merge']"),
    ("{'map_merge':[]}", "right"),
    ("{'map_replace':[1,2]}", "right"),
    ("{'list_concat':5}", "H22 ['list_concat']"),
    ("{'list_concat_unique':[1]}", "right"),
    ("{'filter':[1,2,3]}", "H22 ['filter']"),
    ("{'contains':[1]}", "H22 ['contains']"),
    ("{'if':['c']}", "H22 ['if']"),
    ("{'if':[5,1]}", "H22 ['if']"),
    ("{'if':['d',{'get_param':'q'}]}", "H24 ['if',0]"),
    ("{'if':[{'not':5},1]}", "H22 ['if',0,'not']"),
    (
        "{'if':[{'equals':[{'get_resource':'r'},1]},1]}",
        "H22 ['if',0,'equals',0]",
    ),
    (
        "{'if':[{'equals':[{'get_param':'q'},{'get_attr':['r']}]},1]}",
        "H24 ['if',0,'equals',0,'get_param']",
    ),
    ("{'if':['c',{'get_resource':'r'},{'and':[1]}]}", "right"),
    ("{'equals':5}", "right"),
    ("{'yaql':{'get_param':'q'}}", "H24 ['yaql','get_param']"),
];

#[test]
fn values_have_their_codes(rt: HostRuntime) -> Result<(), AllocError> {
    all_told(&rt, &Place::Open, VALUES)
}

const CONDITIONS: &[Case] = &[
    ("true", "right"),
    ("'c'", "right"),
    ("'d'", "H24 []"),
    ("{'and':['c']}", "H22 ['and']"),
    ("{'and':['c',5]}", "H22 ['and']"),
    ("{'or':['c',{'not':'d'}]}", "H24 ['or',1,'not']"),
    ("{'equals':['d']}", "H22 ['equals']"),
    ("{'equals':['d',{'if':['d',1]}]}", "H24 ['equals',1,'if',0]"),
    (
        "{'contains':[{'get_param':'q'},1]}",
        "H24 ['contains',0,'get_param']",
    ),
    ("{'get_param':['q']}", "H24 ['get_param',0]"),
];

#[test]
fn conditions_have_their_codes(rt: HostRuntime) -> Result<(), AllocError> {
    all_told(&rt, &Place::Condition, CONDITIONS)
}

// The first reference in what may be a condition; `none` where it is none.
struct References;

impl Teller for References {
    fn told(&self, alloc: Global, given: &str) -> Result<String, AllocError> {
        match value_of(alloc, given)? {
            Some(value) if is_condition(&value) => flaw_words(alloc, &reference_in(alloc, &value)?),
            _ => String::from_str(alloc, "none"),
        }
    }
}

const REFERENCES: &[Case] = &[
    ("null", "none"),
    ("[]", "none"),
    ("{'if':['c',1]}", "none"),
    ("{'equals':1,'not':1}", "none"),
    ("{'not':5}", "right"),
    ("false", "right"),
    ("{'equals':[1,{'get_attr':5}]}", "H23 ['equals',1]"),
    (
        "{'equals':[{'get_attr':5,'x':[{'get_resource':{'get_attr':1}}]},1]}",
        "H23 ['equals',0,'x',0]",
    ),
];

#[test]
fn conditions_refer_to_no_resource(rt: HostRuntime) -> Result<(), AllocError> {
    all_told(&rt, &References, REFERENCES)
}
