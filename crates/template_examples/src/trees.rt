//! Whole templates from outside, in single quotes: each code with its path, and beside the next one; each
//! version; the length of a name.
use crate::cases::{Case, Count, Counter, Teller, all_counted, all_told, fault_words, value_of};
use heat_value::Value;
use hot_tree::{HotFault, Template};
use std::alloc::{AllocError, Global};

// A fault's code and path.
fn words_of(alloc: Global, fault: &HotFault) -> Result<String, AllocError> {
    match (fault.code(), fault.path()) {
        (Some(code), Some(path)) => fault_words(alloc, code, path),
        _ => Err(AllocError),
    }
}

// What a value is read as, in words.
fn judged(alloc: Global, value: &Value) -> Result<String, AllocError> {
    match Template::from_value(alloc, value) {
        Ok(_) => String::from_str(alloc, "right"),
        Err(fault) => words_of(alloc, &fault),
    }
}

// What the value that is given is read as.
struct Whole;

impl Teller for Whole {
    fn told(&self, alloc: Global, given: &str) -> Result<String, AllocError> {
        match value_of(alloc, given)? {
            Some(value) => judged(alloc, &value),
            None => String::from_str(alloc, "no value"),
        }
    }
}

// What a template of the sections that are given is read as.
struct Sections;

impl Teller for Sections {
    fn told(&self, alloc: Global, given: &str) -> Result<String, AllocError> {
        let text = format!(in alloc; "{{'heat_template_version':'rocky',{given}}}")?;
        Whole.told(alloc, text.as_str())
    }
}

// What a template of the version that is given is read as.
struct Version;

impl Teller for Version {
    fn told(&self, alloc: Global, given: &str) -> Result<String, AllocError> {
        let text = format!(in alloc; "{{'heat_template_version':'{given}'}}")?;
        Whole.told(alloc, text.as_str())
    }
}

const WHOLE: &[Case] = &[
    ("[]", "H01 []"),
    ("null", "H01 []"),
    ("{}", "H02 []"),
    (
        "{'AWSTemplateFormatVersion':null}",
        "H03 ['AWSTemplateFormatVersion']",
    ),
    (
        "{'heat_template_version':'2099-01-01'}",
        "H04 ['heat_template_version']",
    ),
    (
        "{'HeatTemplateFormatVersion':1,'heat_template_version':1}",
        "H03 ['HeatTemplateFormatVersion']",
    ),
    (
        "{'foo':1,'heat_template_version':'2099-01-01'}",
        "H04 ['heat_template_version']",
    ),
    (
        "{'foo':1,'heat_template_version':'rocky','outputs':1}",
        "H05 ['foo']",
    ),
    (
        "{'heat_template_version':'rocky','outputs':1,'parameters':{'':1}}",
        "H06 ['outputs']",
    ),
    (
        "{'heat_template_version':'rocky','conditions':null,'outputs':null,'parameters':null,'resources':null}",
        "right",
    ),
];

#[test]
fn values_have_their_codes(rt: HostRuntime) -> Result<(), AllocError> {
    all_told(&rt, &Whole, WHOLE)
}

const VERSIONS: &[Case] = &[
    ("2013-05-23", "right"),
    ("2014-10-16", "right"),
    ("2015-04-30", "right"),
    ("2015-10-15", "right"),
    ("2016-04-08", "right"),
    ("2016-10-14", "right"),
    ("newton", "right"),
    ("2017-02-24", "right"),
    ("ocata", "right"),
    ("2017-09-01", "right"),
    ("pike", "right"),
    ("2018-03-02", "right"),
    ("queens", "right"),
    ("2018-08-31", "right"),
    ("rocky", "right"),
    ("mitaka", "H04 ['heat_template_version']"),
    ("Rocky", "H04 ['heat_template_version']"),
    ("", "H04 ['heat_template_version']"),
];

#[test]
fn versions_are_known(rt: HostRuntime) -> Result<(), AllocError> {
    all_told(&rt, &Version, VERSIONS)
}

// An output whose name has so many letters.
fn named(alloc: Global, letters: usize) -> Result<String, AllocError> {
    let mut text = String::from_str(alloc, "'outputs':{'")?;
    for _ in 0..letters {
        text.push_str("n")?;
    }
    text.push_str("':{'value':1}}")?;
    Ok(text)
}

// What a template is read as whose output has a name of so many letters.
struct NamedOutput;

impl Counter for NamedOutput {
    fn told_of(&self, alloc: Global, count: usize) -> Result<String, AllocError> {
        let told = Sections.told(alloc, named(alloc, count)?.as_str())?;
        String::from_str(
            alloc,
            if told.as_str() == "right" {
                "right"
            } else {
                "refused"
            },
        )
    }
}

const NAMES: &[Count] = &[
    (0, "refused"),
    (1, "right"),
    (255, "right"),
    (256, "refused"),
];

#[test]
fn names_have_255_bytes(rt: HostRuntime) -> Result<(), AllocError> {
    all_counted(&rt, &NamedOutput, NAMES)
}

const ENTRIES: &[Case] = &[
    ("'parameters':{'a b':1}", "H07 ['parameters','a b']"),
    ("'parameters':{'a':1,'b ':1}", "H08 ['parameters','a']"),
    (
        "'parameters':{'a':{'type':'x'}},'conditions':{' ':1}",
        "H09 ['parameters','a','type']",
    ),
    (
        "'parameters':{'a':{'kind':1}}",
        "H08 ['parameters','a','kind']",
    ),
    (
        "'parameters':{'a':{'label':1,'type':1}}",
        "H09 ['parameters','a','type']",
    ),
    (
        "'parameters':{'a':{'constraints':1,'label':1,'type':'json'}}",
        "H10 ['parameters','a','label']",
    ),
    (
        "'parameters':{'a':{'constraints':[{'range':{'min':1}},1],'type':'json'}}",
        "H11 ['parameters','a','constraints']",
    ),
    (
        "'parameters':{'a':{'constraints':[{'range':{'min':1}}],'type':'json'}},'resources':{'r':1}",
        "H12 ['parameters','a','constraints',0,'range']",
    ),
    (
        "'conditions':{' ':5},'resources':{'r':1}",
        "H07 ['conditions',' ']",
    ),
    (
        "'conditions':{'c':5},'resources':{'r':1}",
        "H23 ['conditions','c']",
    ),
    (
        "'conditions':{'c':{'equals':[{'get_resource':'r'},{'get_param':'q'}]}}",
        "H23 ['conditions','c','equals',0]",
    ),
    ("'resources':{'0-_.':{'type':'T'}}", "right"),
    (
        "'resources':{'a b':{'type':'T'},'r':1}",
        "H07 ['resources','a b']",
    ),
    ("'resources':{'r':1,'s ':1}", "H13 ['resources','r']"),
    (
        "'resources':{'r':{'kind':1}}",
        "H13 ['resources','r','kind']",
    ),
    (
        "'resources':{'r':{'properties':1}}",
        "H14 ['resources','r']",
    ),
    (
        "'resources':{'r':{'type':'T'},'s':{}}",
        "H14 ['resources','s']",
    ),
    (
        "'resources':{'r':{'properties':1,'type':1}}",
        "H14 ['resources','r','type']",
    ),
    (
        "'resources':{'r':{'metadata':1,'properties':1,'type':'T'}}",
        "H15 ['resources','r','properties']",
    ),
    (
        "'resources':{'r':{'depends_on':1,'metadata':1,'type':'T'}}",
        "H16 ['resources','r','metadata']",
    ),
    (
        "'resources':{'r':{'deletion_policy':1,'depends_on':null,'type':'T'}}",
        "H17 ['resources','r','depends_on']",
    ),
    (
        "'resources':{'r':{'depends_on':['r',1],'type':'T'}}",
        "H17 ['resources','r','depends_on']",
    ),
    (
        "'resources':{'r':{'deletion_policy':'DELETE','type':'T','update_policy':1}}",
        "H18 ['resources','r','deletion_policy']",
    ),
    (
        "'resources':{'r':{'condition':5,'type':'T','update_policy':1}}",
        "H19 ['resources','r','update_policy']",
    ),
    (
        "'outputs':{'o':1},'resources':{'r':{'condition':null,'type':'T'}}",
        "H20 ['resources','r','condition']",
    ),
    (
        "'outputs':1,'resources':{'r':{'condition':{'get_param':['p',{'get_attr':5}]},'type':'T'}}",
        "H06 ['outputs']",
    ),
    (
        "'outputs':{'o':1},'resources':{'r':{'condition':{'get_param':['p',{'get_attr':5}]},'type':'T'}}",
        "H23 ['resources','r','condition','get_param',1]",
    ),
    ("'outputs':{'o':1}", "H21 ['outputs','o']"),
    ("'outputs':{'o':{'Value':1}}", "H21 ['outputs','o']"),
    (
        "'outputs':{'o':{'Value':1,'condition':5,'value':{'get_param':1}}}",
        "H21 ['outputs','o','Value']",
    ),
    (
        "'outputs':{'o':{'condition':[],'value':{'get_param':1}}}",
        "H23 ['outputs','o','condition']",
    ),
];

#[test]
fn entries_have_their_codes(rt: HostRuntime) -> Result<(), AllocError> {
    all_told(&rt, &Sections, ENTRIES)
}

const FUNCTIONS: &[Case] = &[
    (
        "'outputs':{'o':{'value':{'get_param':1}}}",
        "H22 ['outputs','o','value','get_param']",
    ),
    (
        "'outputs':{'o':{'value':{'get_param':'p'}}}",
        "H24 ['outputs','o','value','get_param']",
    ),
    (
        "'outputs':{'o':{'value':{'if':['c',{'get_param':'p'},1,1]}}}",
        "H22 ['outputs','o','value','if']",
    ),
    (
        "'outputs':{'o':{'value':{'get_param':'p'}}},'parameters':{'p':{'type':'json'}}",
        "right",
    ),
    (
        "'outputs':{'o':{'condition':'c','value':{'get_param':1}}}",
        "H24 ['outputs','o','condition']",
    ),
    (
        "'conditions':{'c':true},'outputs':{'o':{'condition':'c','value':null}}",
        "right",
    ),
    (
        "'outputs':{'o':{'value':{'get_param':1}}},\
             'resources':{'r':{'condition':'c','properties':{'x':{'get_param':1}},'type':'T'}}",
        "H24 ['resources','r','condition']",
    ),
    (
        "'outputs':{'o':{'value':{'get_param':1}}},\
             'resources':{'r':{'properties':{'x':{'get_param':1}},'type':'T'}}",
        "H22 ['resources','r','properties','x','get_param']",
    ),
    (
        "'resources':{'r':{'properties':{'get_param':1},'type':'T'}}",
        "right",
    ),
    (
        "'conditions':{'c':'d'},'resources':{'r':{'properties':{'x':{'get_param':1}},'type':'T'}}",
        "H24 ['conditions','c']",
    ),
    (
        "'resources':{'r':{'metadata':{'x':{'get_param':1}},'type':'T'}}",
        "right",
    ),
    (
        "'resources':{'r':{'properties':{'x':{'if':[{'equals':[{'get_attr':['r','a']},1]},1]}},'type':'T'}}",
        "H22 ['resources','r','properties','x','if',0,'equals',0]",
    ),
];

#[test]
fn functions_have_their_codes(rt: HostRuntime) -> Result<(), AllocError> {
    all_told(&rt, &Sections, FUNCTIONS)
}
