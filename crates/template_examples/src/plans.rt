//! A plan, and what is known of its resources: what a value comes to with them.
ghost use Rattle.std.specs.Prelude.{◌≡◌, IfOk};

use crate::cases::{Teller, fault_words, value_of, value_words};
use heat_plan::{
    ByName, Condition, Facts, File, KnownFacts, Parameters, Plan, Properties, ResName,
};
use heat_value::{Props, Seq, Text, TryCopy, Value};
use hot_eval::{EvalFault, eval};
use std::alloc::{AllocError, Global};

// The parameters, and the attributes of the resource a, and of `gone`, which is absent.
const PARAMS: &str = "{'p':'x','n':5,'yes':true,'j':{'k':[1,{'m':'v'}]},'list':['a','b'],\
'call':{'get_param':'p'},'off':{'get_param':7},'gone':{'get_file':'none'},'deep':{'l':[{'digest':['md4','']}]},\
'again':[{'repeat':{'template':'x','for_each':{'x':{'get_param':'again'}}}}]}";

const ATTRS: &str = "{'addr':'1.2','ports':[{'ip':'10'}]}";

/// A text in single quotes, read as a map; empty where it is none.
pub(crate) fn props_of(alloc: Global, text: &str) -> Result<Props, AllocError> {
    match &value_of(alloc, text)? {
        Some(Value::Fields(fields)) => fields.copy(),
        _ => Ok(Props::new(alloc)),
    }
}

/// A map of properties; it nests at most 64 deep.
pub(crate) fn properties_of(alloc: Global, text: &str) -> Result<Properties, AllocError> {
    Properties::from_props(props_of(alloc, text)?).ok_or(AllocError)
}

/// A resource's name.
pub(crate) fn name_of(alloc: Global, text: &str) -> Result<ResName, AllocError> {
    ResName::read(alloc, text.as_bytes())?.ok_or(AllocError)
}

fn params_of(alloc: Global) -> Result<Parameters, AllocError> {
    Parameters::from_props(props_of(alloc, PARAMS)?).ok_or(AllocError)
}

fn condition_of(alloc: Global, name: &str, value: bool) -> Result<Condition, AllocError> {
    let name = Text::from_str(alloc, name)?;
    Ok(Condition { name, value })
}

// The conditions off and on.
fn conds_of(alloc: Global) -> Result<ByName<Condition>, AllocError> {
    let mut conds = Seq::new(alloc);
    conds.push(condition_of(alloc, "off", false)?)?;
    conds.push(condition_of(alloc, "on", true)?)?;
    Ok(ByName::from_list(conds))
}

// The file f.
fn files_of(alloc: Global) -> Result<ByName<File>, AllocError> {
    let name = Text::from_str(alloc, "f")?;
    let content = Text::from_str(alloc, "text")?;
    let mut files = Seq::new(alloc);
    files.push(File { name, content })?;
    Ok(ByName::from_list(files))
}

// The absent resource.
fn absent_of(alloc: Global) -> Result<Seq<ResName>, AllocError> {
    let mut absent = Seq::new(alloc);
    absent.push(name_of(alloc, "gone")?)?;
    Ok(absent)
}

/// A plan of no items, with all of these.
pub(crate) fn plan_of(alloc: Global) -> Result<Plan, AllocError> {
    let params = params_of(alloc)?;
    let conds = conds_of(alloc)?;
    let files = files_of(alloc)?;
    let absent = absent_of(alloc)?;
    Ok(Plan::new(
        Seq::new(alloc),
        Seq::new(alloc),
        params,
        conds,
        files,
        absent,
    ))
}

fn known_of(alloc: Global, name: &str) -> Result<KnownFacts, AllocError> {
    let name = name_of(alloc, name)?;
    let id = Text::from_str(alloc, "id-a")?;
    let attrs = properties_of(alloc, ATTRS)?;
    let facts = Facts { id, attrs };
    Ok(KnownFacts { name, facts })
}

/// What is known of both resources.
pub(crate) fn both_known(alloc: Global) -> Result<Seq<KnownFacts>, AllocError> {
    let mut known = Seq::new(alloc);
    known.push(known_of(alloc, "a")?)?;
    known.push(known_of(alloc, "gone")?)?;
    Ok(known)
}

/// A fault's code and path.
pub(crate) fn eval_fault_words(alloc: Global, fault: &EvalFault) -> Result<String, AllocError> {
    match fault {
        EvalFault::Wrong(code, path) => fault_words(alloc, code.text(), path),
        EvalFault::Memory => Err(AllocError),
    }
}

// What a value comes to, in words.
fn outcome_of(alloc: Global, given: &Value) -> Result<String, AllocError> {
    let plan = plan_of(alloc)?;
    let known = both_known(alloc)?;
    match eval(alloc, given, &plan, known.as_slice()) {
        Ok(made) => value_words(alloc, &made),
        Err(fault) => eval_fault_words(alloc, &fault),
    }
}

/// What the value that is given comes to, as compact JSON, or a fault's code and path.
pub(crate) struct Evaluated;

impl Teller for Evaluated {
    fn told(&self, alloc: Global, given: &str) -> Result<String, AllocError> {
        match value_of(alloc, given)? {
            Some(value) => outcome_of(alloc, &value),
            None => String::from_str(alloc, "no value"),
        }
    }
}
