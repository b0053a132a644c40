//! The ids and the attributes that the cloud gives.
ghost use Rattle.std.specs.Prelude.{◌≡◌, ◌++◌, ◌∷◌, IfOk, decimal};
ghost use Rattle.heat_value.specs.Data.{keys_of};
ghost use Rattle.heat_value.specs.Meaning.{data_of};
ghost use Rattle.sim_cloud.specs.Rule.{id_of, value_of, attrs_of, facts_of, facts_again, fresh};

use heat_plan::{Facts, Kind, Properties, RowNo, Token};
use heat_value::{Props, Seq, Text, TryCopy, Value};
use provider::Alive;
use std::alloc::{AllocError, Global};

/// A new resource of a kind.
pub fn new_resource(
    alloc: Global,
    token: &Token,
    kind: &Kind,
    props: &Properties,
) -> Result<Alive, AllocError>
    ensures { IfOk result (λ a. a ≡ fresh token.now kind.now props.now) }
{
    let facts = new_facts(alloc, &kind.attrs, props, token.row)?;
    Ok(Alive {
        token: token.copy()?,
        kind: kind.name.copy()?,
        props: props.copy()?,
        facts,
        ready: false,
    })
}

// What a resource tells once it is ready: its id and its attributes.
fn new_facts(
    alloc: Global,
    names: &Seq<Text>,
    props: &Properties,
    row: RowNo,
) -> Result<Facts, AllocError>
    ensures { IfOk result (λ f. f ≡ facts_of names.now props.now row) }
{
    Ok(Facts {
        id: new_id(alloc, row)?,
        attrs: attributes(alloc, names, props, row)?,
    })
}

// The id of a resource, by its row.
fn new_id(alloc: Global, row: RowNo) -> Result<Text, AllocError>
    ensures { IfOk result (λ t. t ≡ id_of row) }
{
    let text = format!(in alloc; "sim-{}", row.get())?;
    Ok(Text::from_string(text))
}

/// The facts with each attribute anew.
pub fn facts_anew(
    alloc: Global,
    facts: &Facts,
    props: &Properties,
    row: RowNo,
) -> Result<Facts, AllocError>
    ensures { IfOk result (λ f. f ≡ facts_again facts.now props.now row) }
{
    let names = names_of(alloc, &facts.attrs)?;
    Ok(Facts {
        id: facts.id.copy()?,
        attrs: attributes(alloc, &names, props, row)?,
    })
}

// The names of attributes.
#[tactic(auto, using(crate::proofs::Attributes::keys_of_members))]
fn names_of(alloc: Global, attrs: &Properties) -> Result<Seq<Text>, AllocError>
    ensures { IfOk result (λ names. names ≡ keys_of attrs.now) }
{
    let mut names = Seq::new(alloc);
    for entry in attrs.as_props().as_slice() {
        names.push(entry.key.copy()?)?;
    }
    Ok(names)
}

// The value of each of these names.
#[tactic(auto, using(crate::proofs::Attributes::attributes_shallow))]
fn attributes(
    alloc: Global,
    names: &Seq<Text>,
    props: &Properties,
    row: RowNo,
) -> Result<Properties, AllocError>
    ensures { IfOk result (λ m. m ≡ attrs_of names.now props.now row) }
{
    let all = values(alloc, names, props, row)?;
    let _shallow = props.as_props();
    match Properties::from_props(all) {
        Some(attrs) => Ok(attrs),
        None => unreachable!(),
    }
}

// The values of these attributes.
fn values(
    alloc: Global,
    names: &Seq<Text>,
    props: &Properties,
    row: RowNo,
) -> Result<Props, AllocError>
    ensures { IfOk result (λ m. m ≡ attrs_of names.now props.now row) }
{
    let mut all = Props::new(alloc);
    for name in names.as_slice() {
        all.put(name.copy()?, value(alloc, name, props, row)?)?;
    }
    Ok(all)
}

// The property of that name, else words of the name and the row.
fn value(alloc: Global, name: &Text, props: &Properties, row: RowNo) -> Result<Value, AllocError>
    ensures { IfOk result (λ v. data_of v ≡ value_of props.now row name.now) }
{
    if let Some(value) = props.as_props().get(name) {
        return value.copy();
    }
    let text = format!(in alloc; "{}-{}", name.as_str(), row.get())?;
    Ok(Value::Words(Text::from_string(text)))
}
