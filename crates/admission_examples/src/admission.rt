//! Templates that are admitted, with their plans, and how many resources one may have.
ghost use Rattle.std.specs.Prelude.{◌≤◌};
ghost use Rattle.heat_value.specs.Data.{members_depth};

use crate::admitting::{Admitted, kinds_of};
use crate::cases::{Case, wrong_among};
use crate::given::{bound_of, fault_words, template_of};
use heat_plan::Plan;
use heat_value::{Props, Text};
use hot_admit::{AdmitFault, admit};
use hot_params::Bound;
use hot_tree::Template;
use std::alloc::{AllocError, Global};
use std::test::Fail;

const ADMITTED: &[Case] = &[
    ("'resources':{}", "{}", "f@F g@G "),
    (
        "'resources':{'b':{'type':'Box'},'a':{'type':'Box','deletion_policy':'Retain','depends_on':['c','b','c']},\
        'c':{'type':'Box','deletion_policy':'retain'}}",
        "{}",
        "a:Box<b<c! b:Box c:Box! f@F g@G ",
    ),
    (
        "'resources':{'a':{'type':'Box','properties':{'size':{'get_attr':['b','size']},\
        'link':[{'get_resource':'d'}],\
        'zone':{'if':[false,{'get_resource':'c'}]}}},'b':{'type':'Box'},'c':{'type':'Box'},'d':{'type':'Box',\
        'metadata':{'x':{'get_resource':'e'}}}}",
        "{}",
        "a:Box<b<c<d b:Box c:Box d:Box f@F g@G ",
    ),
    (
        "'resources':{'a':{'type':'Box','properties':{'link':{'get_resource':'b'}},'depends_on':'b'},'b':{'type':\
        'Box','condition':false,'depends_on':'a'}}",
        "{}",
        "a:Box f@F g@G -b ",
    ),
    (
        "'resources':{'a':{'type':'Box','properties':{'link':{'repeat':{'template':{'get_resource':'b'},'for_each':\
        {'b':['a']}}}}},'b':{'type':'Box'}}",
        "{}",
        "a:Box<b b:Box f@F g@G ",
    ),
    (
        "'resources':{'a':{'type':'Box','update_policy':{}},'b':{'type':'Box','update_policy':null,\
        'properties':null}},\
        'outputs':{'o':{'value':{'get_attr':['a','addr']}},'p':{'value':1,'condition':false},'q':{'value':null,\
        'description':{'yaql':1}}}",
        "{}",
        "a:Box b:Box o={'get_attr':['a','addr']} p=null q=null f@F g@G ",
    ),
    (
        "'conditions':{'c':{'equals':[1,1]},'d':false},'resources':{'a':{'type':'Box','condition':'c'},'b':{'type':\
        'Box','condition':'d'}},'outputs':{'o':{'value':7,'condition':'d'}}",
        "{}",
        "a:Box o=null c?true d?false f@F g@G -b ",
    ),
    (
        "'resources':{'a':{'type':'Box','properties':{'get_resource':null}}}",
        "{}",
        "A05 ['resources','a','properties','get_resource']",
    ),
    (
        "'resources':{'n':{'type':'Net','properties':{'cidr':null,'name':{'get_file':'f'}}}}",
        "{}",
        "n:Net f@F g@G ",
    ),
    (
        "'resources':{'a':{'type':'Box','properties':{'size':{'get_attr':['a']}}}}",
        "{}",
        "A04 ['a']",
    ),
    (
        "'resources':{'a':{'type':'Box','properties':{'size':{'get_attr':['n','cidr','more',0]}}},\
        'n':{'type':'Net',\
        'properties':{'cidr':1,'name':2}}}",
        "{}",
        "a:Box<n n:Net f@F g@G ",
    ),
];

#[test]
fn templates_are_admitted(rt: HostRuntime) -> Result<(), Fail> {
    let wrong = wrong_among(rt.alloc(), &Admitted, ADMITTED)?;
    assert_eq!(rt; wrong.as_str(), "");
    Ok(())
}

// A template's sections of so many resources, each of which needs the first.
fn many(alloc: Global, count: usize) -> Result<String, AllocError> {
    let mut words = String::from_str(alloc, "'resources':{'r':{'type':'Box'}")?;
    for i in 1..count {
        let text = format!(in alloc; ",'r{}':{{'type':'Box','depends_on':['r']}}", i)?;
        words.push_str(text.as_str())?;
    }
    words.push_str("}")?;
    Ok(words)
}

// The plan of a template without files, or why there is none.
fn plan_in(
    alloc: Global,
    template: &Template,
    bound: &Bound,
) -> Result<Result<Plan, AdmitFault>, AllocError>
    requires { members_depth template.now ≤ 64 }
{
    let catalog = kinds_of(alloc)?;
    Ok(admit(alloc, template, bound, &Props::new(alloc), &catalog))
}

// The same of these sections and parameters.
fn plan_of(
    alloc: Global,
    sections: &str,
    given: &str,
) -> Result<Result<Plan, AdmitFault>, AllocError> {
    let template = template_of(alloc, sections)?;
    let bound = bound_of(alloc, &template, given)?;
    plan_in(alloc, &template, &bound)
}

// What a template of so many resources is admitted as: how many items, or the fault.
fn counted(alloc: Global, count: usize) -> Result<String, AllocError> {
    let sections = many(alloc, count)?;
    match plan_of(alloc, sections.as_str(), "{}")? {
        Ok(plan) => format!(in alloc; "{}", plan.items().len()),
        Err(fault) => fault_words(alloc, fault.code(), fault.path()),
    }
}

#[test]
fn so_many_resources_are_admitted(rt: HostRuntime) -> Result<(), Fail> {
    for (count, wanted) in [(1000, "1000"), (1001, "A07 ['resources']")] {
        let told = match counted(rt.alloc(), count) {
            Ok(told) => told,
            Err(_) => counted(rt.alloc(), count)?,
        };
        assert_eq!(rt; told.as_str(), wanted);
    }
    Ok(())
}

fn text_under(alloc: Global, props: &Props, key: &str) -> Result<Text, AllocError> {
    let key = Text::from_str(alloc, key)?;
    let value = props.get(&key).ok_or(AllocError)?;
    value.text(alloc)
}

// How many parameters, soft properties and attributes the plan of one item keeps, the parameter p, and the
// item's size.
fn kept(alloc: Global, plan: &Plan) -> Result<String, AllocError> {
    let item = plan.items().first().ok_or(AllocError)?;
    let params = plan.params().as_props();
    let (soft, attrs) = (item.kind.soft.len(), item.kind.attrs.len());
    let given = text_under(alloc, params, "p")?;
    let size = text_under(alloc, item.props.as_props(), "size")?;
    let count = params.as_slice().len();
    format!(in alloc;
        "{count} {soft} {attrs} {} {}",
        given.as_str(),
        size.as_str()
    )
}

// The same of the plan of a box whose size is a parameter, which is given as a text.
fn planned(alloc: Global) -> Result<String, AllocError> {
    let sections = "'parameters':{'p':{'type':'number'}},\
        'resources':{'a':{'type':'Box','properties':{'size':{'get_param':'p'}}}}";
    match plan_of(alloc, sections, "{'p':'5'}")? {
        Ok(plan) => kept(alloc, &plan),
        Err(_) => Err(AllocError),
    }
}

#[test]
fn a_plan_keeps_what_is_given(rt: HostRuntime) -> Result<(), Fail> {
    let kept = match planned(rt.alloc()) {
        Ok(kept) => kept,
        Err(_) => planned(rt.alloc())?,
    };
    assert_eq!(rt; kept.as_str(), "4 2 2 5 {\"get_param\":\"p\"}");
    Ok(())
}
