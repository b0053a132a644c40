//! Sections of templates and parameters from outside, in single quotes: each code with its path, and beside
//! the next one.
use crate::cases::{Case, Teller, all_told, flaw_words, value_of};
use heat_value::{Text, Value};
use hot_forms::{parameter_flaw, sections_flaw};
use std::alloc::{AllocError, Global};

// What is wrong with the sections that are given.
struct Sections;

impl Teller for Sections {
    fn told(&self, alloc: Global, given: &str) -> Result<String, AllocError> {
        match &value_of(alloc, given)? {
            Some(Value::Fields(fields)) => flaw_words(alloc, &sections_flaw(alloc, fields)?),
            _ => String::from_str(alloc, "no object"),
        }
    }
}

const SECTIONS: &[Case] = &[
    ("{}", "H02 []"),
    ("{'heat_template_version':null}", "H02 []"),
    (
        "{'AWSTemplateFormatVersion':null,'HeatTemplateFormatVersion':1}",
        "H03 ['AWSTemplateFormatVersion']",
    ),
    (
        "{'HeatTemplateFormatVersion':1,'zoo':1}",
        "H03 ['HeatTemplateFormatVersion']",
    ),
    (
        "{'heat_template_version':'2099-01-01','zoo':1}",
        "H04 ['heat_template_version']",
    ),
    (
        "{'heat_template_version':20180831}",
        "H04 ['heat_template_version']",
    ),
    (
        "{'heat_template_version':'rocky','description':1,'zoo':null,'zoa':1}",
        "H05 ['zoa']",
    ),
    (
        "{'heat_template_version':'rocky','conditions':[],'description':null,'parameter_groups':{}}",
        "H06 ['parameter_groups']",
    ),
    (
        "{'heat_template_version':'rocky','conditions':[],'outputs':[]}",
        "H06 ['conditions']",
    ),
    (
        "{'heat_template_version':'queens','conditions':null,'description':'','parameter_groups':[1]}",
        "right",
    ),
    (
        "{'heat_template_version':'2013-05-23','resources':{}}",
        "right",
    ),
];

#[test]
fn sections_have_their_codes(rt: HostRuntime) -> Result<(), AllocError> {
    all_told(&rt, &Sections, SECTIONS)
}

// What is wrong with the parameter of this name.
#[derive(Clone, Copy)]
struct Parameter(&'static str);

impl Teller for Parameter {
    fn told(&self, alloc: Global, given: &str) -> Result<String, AllocError> {
        let name = Text::from_str(alloc, self.0)?;
        match value_of(alloc, given)? {
            Some(value) => flaw_words(alloc, &parameter_flaw(alloc, &name, &value)?),
            None => String::from_str(alloc, "no value"),
        }
    }
}

const PARAMETERS: &[Case] = &[
    ("{'type':'string'}", "right"),
    ("'string'", "H08 []"),
    ("{'Type':'string','zoo':1}", "H08 ['Type']"),
    ("{'label':1}", "H09 []"),
    ("{'type':null}", "H09 ['type']"),
    ("{'label':1,'type':'String'}", "H09 ['type']"),
    ("{'label':1,'tags':1,'type':'json'}", "H10 ['label']"),
    ("{'tags':['a',1],'type':'json'}", "H10 ['tags']"),
    (
        "{'constraints':1,'hidden':'no','type':'json'}",
        "H10 ['hidden']",
    ),
    ("{'constraints':{},'type':'json'}", "H11 ['constraints']"),
    ("{'constraints':[{}],'type':'json'}", "H11 ['constraints']"),
    (
        "{'constraints':[{'length':{'min':1},'range':{'min':1}}],'type':'string'}",
        "H11 ['constraints']",
    ),
    (
        "{'constraints':[{'length':1},{'description':1,'range':1}],'type':'string'}",
        "H11 ['constraints']",
    ),
    (
        "{'constraints':[{'description':'','length':{'min':0}},{'range':{'min':0}}],'type':'string'}",
        "H12 ['constraints',1,'range']",
    ),
    (
        "{'constraints':[{'length':{'min':-1}}],'type':'string'}",
        "H12 ['constraints',0,'length']",
    ),
    (
        "{'constraints':[{'length':{}}],'type':'string'}",
        "H12 ['constraints',0,'length']",
    ),
    (
        "{'constraints':[{'range':{'max':1,'min':3}}],'default':[],'type':'number'}",
        "right",
    ),
    (
        "{'constraints':[{'range':{'max':1,'mid':3}}],'type':'number'}",
        "H12 ['constraints',0,'range']",
    ),
    (
        "{'constraints':[{'modulo':{'offset':4,'step':5}}],'type':'number'}",
        "right",
    ),
    (
        "{'constraints':[{'modulo':{'offset':5,'step':5}}],'type':'number'}",
        "H12 ['constraints',0,'modulo']",
    ),
    (
        "{'constraints':[{'modulo':{'step':5}}],'type':'number'}",
        "H12 ['constraints',0,'modulo']",
    ),
    (
        "{'constraints':[{'allowed_values':[1,'a']}],'type':'boolean'}",
        "right",
    ),
    (
        "{'constraints':[{'allowed_values':[]}],'type':'json'}",
        "H12 ['constraints',0,'allowed_values']",
    ),
    (
        "{'constraints':[{'allowed_pattern':'a'},{'custom_constraint':1}],'type':'comma_delimited_list'}",
        "H12 ['constraints',1,'custom_constraint']",
    ),
];

#[test]
fn parameters_have_their_codes(rt: HostRuntime) -> Result<(), AllocError> {
    all_told(&rt, &Parameter("p"), PARAMETERS)
}

#[test]
fn names_come_before_what_they_name(rt: HostRuntime) -> Result<(), AllocError> {
    all_told(&rt, &Parameter("a b"), &[("5", "H07 []")])?;
    all_told(&rt, &Parameter(""), &[("{'type':'string'}", "H07 []")])
}
