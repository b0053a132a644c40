//! The conditions that a condition names.
ghost use Rattle.std.specs.Prelude.{◌≡◌, ◌++◌, ◌<◌, ◌^◌, IfOk, OnOk, map, length};
ghost use Rattle.heat_value.specs.Data.{keys_of, Rises};
ghost use Rattle.heat_value.specs.Meaning.{data_of, nodes_of, members_of};
ghost use Rattle.eval_words.specs.Conditions.{names_read as the_names_read, names_read_among as the_names_read_among};
ghost use Rattle.eval_words.specs.Conditions.{names_read_under as the_names_read_under, name_at as the_name_at};
ghost use Rattle.hot_admit.specs.Naming.{HasNames, AddsNames};

use crate::lookup::place_of;
use dep_graph::Graph;
use heat_value::{Member, Text, Value};
use hot_functions::{Place, item_place, lone, member_place};
use std::alloc::{AllocError, Global};

/// The graph of what conditions name: a node for each by its place, and an edge to it from each that it
/// names.
pub fn names_graph(alloc: Global, conds: &[Member]) -> Result<Graph, AllocError>
    requires { Rises (members_of conds.now) }
    ensures { IfOk result (λ g. HasNames (members_of conds.now) g) }
{
    if conds.len() > u32::MAX as usize {
        return Err(AllocError);
    }
    let mut graph = Graph::new(alloc, conds.len() as u32)?;
    for (place, cond) in conds.iter().enumerate() {
        let mut names = Vec::new(alloc);
        add_read(Place::Condition, &cond.value, &mut names)?;
        add_names(&mut graph, conds, names.as_slice(), place as u32)?;
    }
    Ok(graph)
}

// An edge to a condition from each of these names; a name that no condition has is none.
fn add_names(
    graph: &mut Graph,
    conds: &[Member],
    names: &[&Text],
    after: u32,
) -> Result<(), AllocError>
    requires rising { Rises (members_of conds.now) }
    requires few { length conds.now < 2 ^ 32 }
    requires size { length graph.old ≡ length (keys_of (members_of conds.now)) }
    requires after { after < length graph.old }
    ensures { OnOk result (AddsNames (members_of conds.now) (map (λ t. t.now) names.now) after
        graph.old graph.new) }
{
    for name in names {
        match place_of(conds, name) {
            Ok(before) => graph.add_edge(before as u32, after)?,
            Err(_) => {}
        }
    }
    Ok(())
}

// Puts the names of conditions in a value that is read so behind the last, whatever is evaluated of it.
#[cycle(names_read)]
fn add_read<'a>(place: Place, value: &'a Value, names: &mut Vec<&'a Text>) -> Result<(), AllocError>
    ensures { OnOk result (map (λ t. t.now) names.new.items
        ≡ map (λ t. t.now) names.old.items ++ the_names_read place (data_of value.now)) }
{
    match value {
        Value::Words(name) => add_name(place, name, names),
        Value::Items(items) => add_read_among(place, items.as_slice(), names),
        Value::Fields(fields) => {
            let members = fields.as_slice();
            add_read_under(member_place(place, lone(members)), members, names)
        }
        Value::Null | Value::Flag(_) | Value::Whole(_) => Ok(()),
    }
}

// Adds the conditions that the items of a list name.
#[cycle(names_read)]
#[tactic(auto, using(crate::proofs::Weights::for_walks))]
fn add_read_among<'a>(
    place: Place,
    values: &'a [Value],
    names: &mut Vec<&'a Text>,
) -> Result<(), AllocError>
    ensures { OnOk result (map (λ t. t.now) names.new.items
        ≡ map (λ t. t.now) names.old.items ++ the_names_read_among place 0 (nodes_of values.now)) }
{
    for (i, value) in values.iter().enumerate() {
        add_read(item_place(place, i), value, names)?;
    }
    Ok(())
}

// Adds those that the values of an object name.
#[cycle(names_read)]
#[tactic(auto, using(crate::proofs::Weights::for_walks))]
fn add_read_under<'a>(
    place: Place,
    members: &'a [Member],
    names: &mut Vec<&'a Text>,
) -> Result<(), AllocError>
    ensures { OnOk result (map (λ t. t.now) names.new.items
        ≡ map (λ t. t.now) names.old.items ++ the_names_read_under place (members_of members.now)) }
{
    for member in members {
        add_read(place, &member.value, names)?;
    }
    Ok(())
}

// A text where a condition stands is a name.
fn add_name<'a>(place: Place, name: &'a Text, names: &mut Vec<&'a Text>) -> Result<(), AllocError>
    ensures { OnOk result (map (λ t. t.now) names.new.items
        ≡ map (λ t. t.now) names.old.items ++ the_name_at place name.now) }
{
    match place {
        Place::Condition => {
            names.push(name)?;
            Ok(())
        }
        Place::Open | Place::Barred | Place::Conditions => Ok(()),
        Place::Branches | Place::BarredBranches => Ok(()),
    }
}
