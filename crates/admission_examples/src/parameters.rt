//! Parameters: which are bound, what each sort's values convert to, and the pseudo parameters.
use crate::bindings::{Bindings, value_words};
use crate::cases::{Case, wrong_among};
use crate::given::{bound_of, template_of};
use std::alloc::{AllocError, Global};
use std::test::Fail;

const CHOICES: &[Case] = &[
    ("'string'", "'y':1", "P02 ['parameters','y']"),
    ("'number'", "'x':'a','y':1", "P02 ['parameters','y']"),
    (
        "'number'},'a':{'type':'number'",
        "'x':'b'",
        "P01 ['parameters','a']",
    ),
    (
        "'string'",
        "'OS::stack_name':'a','x':'a'",
        "P02 ['parameters','OS::stack_name']",
    ),
    ("'string','default':'d'", "", "'d'"),
    ("'string','default':'d'", "'x':'g'", "'g'"),
    ("'string','default':null", "", "P01 ['parameters','x']"),
    (
        "'string','default':'d'",
        "'x':null",
        "P03 ['parameters','x']",
    ),
    ("'string','default':[]", "", "P03 ['parameters','x']"),
    (
        "'string'},'a':{'type':'number'",
        "'a':'b'",
        "P03 ['parameters','a']",
    ),
];

#[test]
fn choices_are_told(rt: HostRuntime) -> Result<(), Fail> {
    let wrong = wrong_among(rt.alloc(), &Bindings, CHOICES)?;
    assert_eq!(rt; wrong.as_str(), "");
    Ok(())
}

const SCALARS: &[Case] = &[
    ("'string'", "'x':-7", "'-7'"),
    ("'string'", "'x':true", "'true'"),
    ("'string'", "'x':{}", "P03 ['parameters','x']"),
    ("'number'", "'x':'-0'", "0"),
    ("'number'", "'x':'007'", "7"),
    (
        "'number'",
        "'x':'-9223372036854775808'",
        "-9223372036854775808",
    ),
    (
        "'number'",
        "'x':'9223372036854775808'",
        "P03 ['parameters','x']",
    ),
    ("'number'", "'x':'+1'", "P03 ['parameters','x']"),
    ("'number'", "'x':'-'", "P03 ['parameters','x']"),
    ("'number'", "'x':''", "P03 ['parameters','x']"),
    ("'number'", "'x':' 1'", "P03 ['parameters','x']"),
];

#[test]
fn texts_and_numbers_convert(rt: HostRuntime) -> Result<(), Fail> {
    let wrong = wrong_among(rt.alloc(), &Bindings, SCALARS)?;
    assert_eq!(rt; wrong.as_str(), "");
    Ok(())
}

const FLAGS: &[Case] = &[
    ("'boolean'", "'x':'oFf'", "false"),
    ("'boolean'", "'x':0", "false"),
    ("'boolean'", "'x':2", "P03 ['parameters','x']"),
    ("'json'", "'x':[1,{}]", "[1,{}]"),
    ("'json'", "'x':'[1]'", "[1]"),
    ("'json'", "'x':'1'", "P03 ['parameters','x']"),
    ("'json'", "'x':'[1.5]'", "P03 ['parameters','x']"),
];

#[test]
fn flags_and_json_convert(rt: HostRuntime) -> Result<(), Fail> {
    let wrong = wrong_among(rt.alloc(), &Bindings, FLAGS)?;
    assert_eq!(rt; wrong.as_str(), "");
    Ok(())
}

const LISTS: &[Case] = &[
    ("'comma_delimited_list'", "'x':''", "[]"),
    ("'comma_delimited_list'", "'x':' '", "['']"),
    (
        "'comma_delimited_list'",
        "'x':'a,,b c ,'",
        "['a','','b c','']",
    ),
    (
        "'comma_delimited_list'",
        "'x':['a',1,null,[2]]",
        "['a','1','','[2]']",
    ),
];

#[test]
fn lists_convert(rt: HostRuntime) -> Result<(), Fail> {
    let wrong = wrong_among(rt.alloc(), &Bindings, LISTS)?;
    assert_eq!(rt; wrong.as_str(), "");
    Ok(())
}

// The value of a pseudo parameter where there is no other.
fn pseudo(alloc: Global, name: &str) -> Result<String, AllocError> {
    let template = template_of(alloc, "'parameters':{}")?;
    let bound = bound_of(alloc, &template, "{}")?;
    value_words(alloc, &bound, name)
}

// The identifier of the stack s with the number 1 is from outside.
#[test]
fn pseudo_parameters_are_bound(rt: HostRuntime) -> Result<(), Fail> {
    let cases = [
        ("OS::stack_id", "'b2e76ab8-a6aa-5e30-a700-cd6efd27c9b8'"),
        ("OS::stack_name", "'s'"),
        ("OS::project_id", "'demo'"),
    ];
    for (name, wanted) in cases {
        let value = match pseudo(rt.alloc(), name) {
            Ok(value) => value,
            Err(_) => pseudo(rt.alloc(), name)?,
        };
        assert_eq!(rt; value.as_str(), wanted, "{name}");
    }
    Ok(())
}
