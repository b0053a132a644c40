//! The conditions of a template: their values, or the first fault.
use crate::cases::{Case, Teller, wrong_among};
use crate::given::{bound_of, fault_words, template_of};
use crate::words::add_conds;
use hot_admit::{Conds, Wanted, conditions};
use hot_params::Bound;
use hot_tree::Template;
use std::alloc::{AllocError, Global};
use std::test::Fail;

fn add_wanted(
    alloc: Global,
    section: &str,
    all: &[Wanted],
    words: &mut String,
) -> Result<(), AllocError> {
    for wanted in all {
        let text = format!(in alloc; "{section}.{}?{} ", wanted.name.as_str(), wanted.wanted)?;
        words.push_str(text.as_str())?;
    }
    Ok(())
}

// The values of conditions, and which resources and outputs are wanted.
fn conds_words(alloc: Global, conds: &Conds) -> Result<String, AllocError> {
    let mut words = String::new(alloc);
    add_conds(alloc, conds.conds.as_slice(), &mut words)?;
    add_wanted(alloc, "r", conds.resources.as_slice(), &mut words)?;
    add_wanted(alloc, "o", conds.outputs.as_slice(), &mut words)?;
    Ok(words)
}

// The values of conditions, or why there are none.
fn values_of(alloc: Global, template: &Template, bound: &Bound) -> Result<String, AllocError> {
    match conditions(alloc, template, bound) {
        Ok(conds) => conds_words(alloc, &conds),
        Err(fault) => fault_words(alloc, fault.code(), fault.path()),
    }
}

// The values of a template's conditions, with these parameters.
struct Valued;

impl Teller for Valued {
    fn told(&self, alloc: Global, sections: &str, beside: &str) -> Result<String, AllocError> {
        let template = template_of(alloc, sections)?;
        let bound = bound_of(alloc, &template, beside)?;
        values_of(alloc, &template, &bound)
    }
}

const CONDITIONS: &[Case] = &[
    ("'conditions':{}", "{}", ""),
    ("'conditions':null", "{}", ""),
    (
        "'parameters':{'p':{'type':'boolean'}},'conditions':{'c':{'get_param':'p'},'d':{'not':{'get_param':'p'}}}",
        "{'p':'yes'}",
        "c?true d?false ",
    ),
    (
        "'parameters':{'p':{'type':'string'}},'conditions':{'c':{'get_param':'p'}}",
        "{'p':'yes'}",
        "C02 ['conditions','c']",
    ),
    (
        "'conditions':{'a':'b','b':{'not':'c'},'c':true}",
        "{}",
        "a?false b?false c?true ",
    ),
    (
        "'conditions':{'a':{'and':['b','c']},'b':{'or':['c','d']},'c':true,'d':false}",
        "{}",
        "a?true b?true c?true d?false ",
    ),
    ("'conditions':{'a':'a'}", "{}", "C01 ['conditions','a']"),
    (
        "'conditions':{'a':'b','b':'c','c':'b'}",
        "{}",
        "C01 ['conditions','b']",
    ),
    (
        "'conditions':{'a':'z','b':'c','c':'d','d':'c','y':'z','z':'y'}",
        "{}",
        "C01 ['conditions','c']",
    ),
    (
        "'conditions':{'a':{'get_param':'OS::stack_name'},'b':{'not':'b'}}",
        "{}",
        "C01 ['conditions','b']",
    ),
    (
        "'conditions':{'a':{'equals':[1,{'if':[false,{'if':['a',1,2]},1]}]}}",
        "{}",
        "C01 ['conditions','a']",
    ),
    (
        "'conditions':{'a':'b','b':{'get_param':'OS::stack_name'}}",
        "{}",
        "C02 ['conditions','a']",
    ),
    (
        "'conditions':{'a':{'or':[true,{'get_param':'OS::stack_name'}]}}",
        "{}",
        "C02 ['conditions','a']",
    ),
    (
        "'conditions':{'a':{'equals':[1,{'get_file':'f'}]}}",
        "{}",
        "C02 ['conditions','a']",
    ),
    (
        "'conditions':{'a':{'equals':[{'yaql':1},{'yaql':1}]}}",
        "{}",
        "a?true ",
    ),
    (
        "'resources':{'x':{'type':'Q','condition':'a'},'y':{'type':'Q'}},'outputs':{'o':{'value':1,'condition':\
        {'not':'a'}},'p':{'value':2}},'conditions':{'a':false}",
        "{}",
        "a?false r.x?false r.y?true o.o?true o.p?true ",
    ),
    (
        "'resources':{'x':{'type':'Q','condition':{'get_param':'OS::stack_name'}}},'outputs':{'a':{'value':1,\
        'condition':{'get_param':'OS::stack_name'}}}",
        "{}",
        "C02 ['resources','x','condition']",
    ),
    (
        "'outputs':{'a':{'value':1,'condition':true},'b':{'value':1,'condition':{'get_param':'OS::stack_name'}}}",
        "{}",
        "C02 ['outputs','b','condition']",
    ),
    (
        "'resources':{'x':{'type':'Q','condition':{'get_param':'OS::stack_name'}}},'conditions':{'b':{'get_param':\
        'OS::stack_name'}}",
        "{}",
        "C02 ['conditions','b']",
    ),
    (
        "'conditions':{'a':{'equals':[{'repeat':{'template':{'if':['b',1,2]},\
        'for_each':{'b':['z']}}},[1]]},'b':true,\
        'y':false,'z':{'not':'y'}}",
        "{}",
        "a?true b?true y?false z?true ",
    ),
    (
        "'conditions':{'a':{'equals':[{'repeat':{'template':{'if':['b',1,2]},\
        'for_each':{'b':['z']}}},[1]]},'b':true,\
        'z':{'not':'a'}}",
        "{}",
        "C02 ['conditions','a']",
    ),
    (
        "'parameters':{'p':{'type':'string'}},'conditions':{'c':{'contains':['e',{'get_param':'p'}]},'d':{'equals':\
        [{'get_param':'p'},'yes']}}",
        "{'p':'yes'}",
        "c?true d?true ",
    ),
];

#[test]
fn conditions_have_values_or_the_first_fault(rt: HostRuntime) -> Result<(), Fail> {
    let wrong = wrong_among(rt.alloc(), &Valued, CONDITIONS)?;
    assert_eq!(rt; wrong.as_str(), "");
    Ok(())
}
