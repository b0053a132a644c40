//! Constraints of parameters: each with a value that keeps it and one that doesn't, and which is told first.
use crate::bindings::Bindings;
use crate::cases::{Case, wrong_among};
use std::test::Fail;

const WORKED: &[Case] = &[
    (
        "'number','constraints':[{'modulo':{'step':5,'offset':2}}]",
        "'x':7",
        "7",
    ),
    (
        "'number','constraints':[{'modulo':{'step':5,'offset':2}}]",
        "'x':8",
        "P04 ['parameters','x','constraints',0]",
    ),
    (
        "'number','constraints':[{'modulo':{'step':5,'offset':2}}]",
        "'x':-3",
        "-3",
    ),
    ("'boolean'", "'x':'YES'", "true"),
    ("'boolean'", "'x':'maybe'", "P03 ['parameters','x']"),
    ("'comma_delimited_list'", "'x':' a, b'", "['a','b']"),
    ("'string'", "", "P01 ['parameters','x']"),
    ("'string'", "'x':'a','y':1", "P02 ['parameters','y']"),
    (
        "'string','constraints':[{'custom_constraint':'nope'}]",
        "'x':'a'",
        "P05 ['parameters','x','constraints',0]",
    ),
    (
        "'string','constraints':[{'allowed_pattern':'('}]",
        "'x':'a'",
        "P06 ['parameters','x','constraints',0]",
    ),
    (
        "'string','constraints':[{'allowed_pattern':'[a-z]{2,3}'}]",
        "'x':'abc'",
        "'abc'",
    ),
];

#[test]
fn each_constraint_is_kept_or_told(rt: HostRuntime) -> Result<(), Fail> {
    let wrong = wrong_among(rt.alloc(), &Bindings, WORKED)?;
    assert_eq!(rt; wrong.as_str(), "");
    Ok(())
}

const BOUNDED: &[Case] = &[
    (
        "'number','constraints':[{'modulo':{'step':5,'offset':2}}]",
        "'x':-8",
        "-8",
    ),
    (
        "'number','constraints':[{'modulo':{'step':5,'offset':2}}]",
        "'x':'a'",
        "P03 ['parameters','x']",
    ),
    (
        "'number','constraints':[{'range':{'min':1}},{'range':{'max':2}}]",
        "'x':1",
        "1",
    ),
    (
        "'number','constraints':[{'range':{'min':1}},{'range':{'max':2}}]",
        "'x':2",
        "2",
    ),
    (
        "'number','constraints':[{'range':{'min':1}},{'range':{'max':2}}]",
        "'x':3",
        "P04 ['parameters','x','constraints',1]",
    ),
    (
        "'number','constraints':[{'range':{'min':3,'max':1}}]",
        "'x':2",
        "P04 ['parameters','x','constraints',0]",
    ),
    (
        "'string','constraints':[{'length':{'min':2,'max':2}}]",
        "'x':'\u{e9}\u{20ac}'",
        "'\u{e9}\u{20ac}'",
    ),
    (
        "'json','constraints':[{'length':{'min':2,'max':2}}]",
        "'x':{'a':1}",
        "P04 ['parameters','x','constraints',0]",
    ),
    (
        "'comma_delimited_list','constraints':[{'length':{'min':2,'max':2}}]",
        "'x':'a,b,c'",
        "P04 ['parameters','x','constraints',0]",
    ),
    (
        "'number','constraints':[{'allowed_values':['5',6,'x']}]",
        "'x':5",
        "5",
    ),
    (
        "'comma_delimited_list','constraints':[{'allowed_values':['5',6,'x']}]",
        "'x':'6,b'",
        "P04 ['parameters','x','constraints',0]",
    ),
];

#[test]
fn sizes_and_numbers_are_bounded(rt: HostRuntime) -> Result<(), Fail> {
    let wrong = wrong_among(rt.alloc(), &Bindings, BOUNDED)?;
    assert_eq!(rt; wrong.as_str(), "");
    Ok(())
}

const MATCHED: &[Case] = &[
    (
        "'string','constraints':[{'allowed_pattern':'a|ab'}]",
        "'x':'ab'",
        "P04 ['parameters','x','constraints',0]",
    ),
    (
        "'string','constraints':[{'allowed_pattern':'a|ab'}]",
        "'x':'a'",
        "'a'",
    ),
    (
        "'comma_delimited_list','constraints':[{'allowed_pattern':'a|ab'}]",
        "'x':'a,a'",
        "['a','a']",
    ),
    (
        "'comma_delimited_list','constraints':[{'allowed_pattern':'a|ab'}]",
        "'x':'a,b'",
        "P04 ['parameters','x','constraints',0]",
    ),
    (
        "'comma_delimited_list','constraints':[{'allowed_pattern':'('}]",
        "'x':''",
        "P06 ['parameters','x','constraints',0]",
    ),
    (
        "'string','constraints':[{'allowed_pattern':\
        'aaaaaaaaaaaaaaaaaaaaaaaaaaaaaaaaaaaaaaabbbbbbbbbbbbbbbbbbbbbbbbbbbbbbbbbbbbbbb'}]",
        "'x':'aaaaaaaaaaaaaaaaaaaaaaaaaaaaaaaaaaaaaaabbbbbbbbbbbbbbbbbbbbbbbbbbbbbbbbbbbbbbb'",
        "'aaaaaaaaaaaaaaaaaaaaaaaaaaaaaaaaaaaaaaabbbbbbbbbbbbbbbbbbbbbbbbbbbbbbbbbbbbbbb'",
    ),
    (
        "'string','constraints':[{'allowed_pattern':\
        'aaaaaaaaaaaaaaaaaaaaaaaaaaaaaaaaaaaaaaabbbbbbbbbbbbbbbbbbbbbbbbbbbbbbbbbbbbbbb'}]",
        "'x':'a'",
        "P04 ['parameters','x','constraints',0]",
    ),
];

#[test]
fn patterns_are_matched(rt: HostRuntime) -> Result<(), Fail> {
    let wrong = wrong_among(rt.alloc(), &Bindings, MATCHED)?;
    assert_eq!(rt; wrong.as_str(), "");
    Ok(())
}

#[test]
fn a_pattern_may_be_too_large(rt: HostRuntime) -> Result<(), Fail> {
    let cases: [Case; 1] = [(
        "'string','constraints':[{'allowed_pattern':'(a{1000}){1000}'}]",
        "'x':'a'",
        "P06 ['parameters','x','constraints',0]",
    )];
    let wrong = wrong_among(rt.alloc(), &Bindings, &cases)?;
    assert_eq!(rt; wrong.as_str(), "");
    Ok(())
}

const ASKED: &[Case] = &[
    (
        "'string','constraints':[{'custom_constraint':'nova.flavor'}]",
        "'x':'m1.tiny'",
        "'m1.tiny'",
    ),
    (
        "'string','constraints':[{'custom_constraint':'nova.flavor'}]",
        "'x':'huge'",
        "P04 ['parameters','x','constraints',0]",
    ),
    (
        "'comma_delimited_list','constraints':[{'custom_constraint':'nova.flavor'}]",
        "'x':'m1.tiny,huge'",
        "P04 ['parameters','x','constraints',0]",
    ),
    (
        "'comma_delimited_list','constraints':[{'custom_constraint':'nope'},{'allowed_pattern':'('}]",
        "'x':''",
        "P05 ['parameters','x','constraints',0]",
    ),
    (
        "'string','constraints':[{'length':{'min':2}},{'custom_constraint':'nope'}]",
        "'x':'a'",
        "P04 ['parameters','x','constraints',0]",
    ),
    (
        "'string','constraints':[{'length':{'min':2}},{'custom_constraint':'nope'}]",
        "'x':'ab'",
        "P05 ['parameters','x','constraints',1]",
    ),
    (
        "'string','constraints':[{'custom_constraint':'nope'},{'allowed_pattern':'('}]",
        "'x':'a'",
        "P05 ['parameters','x','constraints',0]",
    ),
    (
        "'string','constraints':[{'allowed_pattern':'('},{'custom_constraint':'nope'}]",
        "'x':'a'",
        "P06 ['parameters','x','constraints',0]",
    ),
];

#[test]
fn tests_are_asked(rt: HostRuntime) -> Result<(), Fail> {
    let wrong = wrong_among(rt.alloc(), &Bindings, ASKED)?;
    assert_eq!(rt; wrong.as_str(), "");
    Ok(())
}
