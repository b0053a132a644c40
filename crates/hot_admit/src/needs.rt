//! What an item needs: of the items' names those that its resource names.
ghost use Rattle.std.specs.Prelude.{◌≡◌, ◌++◌, ◌∷◌, [], ℕ, List, IfOk, OnOk, filter, length, map};
ghost use Rattle.heat_plan.specs.Order.{Rising};
ghost use Rattle.heat_value.specs.Meaning.{data_of, nodes_of};
ghost use Rattle.hot_admit.specs.Items.{needs_among, named_by as the_named_by, dependencies, texts_in};
ghost use Rattle.hot_admit.specs.Resources.{resource_data};
ghost use Rattle.hot_forms.specs.Checks.{is_among};

use heat_plan::{Needs, ResName};
use heat_value::{Seq, Text, TryCopy, Value};
use hot_eval::{references_under, text_in};
use hot_tree::Res;
use std::alloc::{AllocError, Global};

/// Of these names, which rise, those in every get_resource and get_attr anywhere in a resource's
/// properties, and those that it depends on.
pub fn needs_of(alloc: Global, res: &Res, names: &[ResName]) -> Result<Needs, AllocError>
    requires { Rising names.now }
    ensures { IfOk result (λ n. n ≡ needs_among names.now (resource_data res.now)) }
{
    let named = named_by(alloc, res)?;
    Ok(Needs::from_rising(those_among(alloc, names, named.as_slice())?))
}

// The names in a resource's properties, and those that it depends on, as they stand there.
fn named_by<'a>(alloc: Global, res: &'a Res) -> Result<Vec<&'a Text>, AllocError>
    ensures { IfOk result (λ ts. map (λ t. t.now) ts.items ≡ the_named_by (resource_data res.now)) }
{
    let mut named = references_under(alloc, &res.props)?;
    add_dependencies(&res.depends_on, &mut named)?;
    Ok(named)
}

// Puts the names that a `depends_on` gives behind the last.
fn add_dependencies<'a>(depends_on: &'a Value, named: &mut Vec<&'a Text>) -> Result<(), AllocError>
    ensures { OnOk result (map (λ t. t.now) named.new.items
        ≡ map (λ t. t.now) named.old.items ++ dependencies (data_of depends_on.now)) }
{
    match depends_on {
        Value::Words(name) => {
            named.push(name)?;
            Ok(())
        }
        Value::Items(items) => add_texts(items.as_slice(), named),
        Value::Null | Value::Flag(_) | Value::Whole(_) | Value::Fields(_) => Ok(()),
    }
}

// Puts the texts of a list behind the last.
fn add_texts<'a>(values: &'a [Value], named: &mut Vec<&'a Text>) -> Result<(), AllocError>
    ensures { OnOk result (map (λ t. t.now) named.new.items
        ≡ map (λ t. t.now) named.old.items ++ texts_in (nodes_of values.now)) }
{
    for value in values {
        if let Some(text) = text_in(value) {
            named.push(text)?;
        }
    }
    Ok(())
}

// Of these names, those that are named.
fn those_among(
    alloc: Global,
    names: &[ResName],
    named: &[&Text],
) -> Result<Seq<ResName>, AllocError>
    requires { Rising names.now }
    ensures { IfOk result (λ ns. ns ≡ filter (is_among (map (λ t. t.now) named.now)) names.now) }
{
    let marks = marks_of(alloc, names, named)?;
    let mut those = Seq::new(alloc);
    for (place, name) in names.iter().enumerate() {
        if marks[place] {
            those.push(name.copy()?)?;
        }
    }
    Ok(those)
}

// Of each of these names whether it is named.
fn marks_of(alloc: Global, names: &[ResName], named: &[&Text]) -> Result<Vec<bool>, AllocError>
    requires { Rising names.now }
    ensures { IfOk result (λ ms. ms.items ≡ map (is_among (map (λ t. t.now) named.now)) names.now) }
{
    let mut marks = vec![in alloc; false; names.len()]?;
    for name in named {
        mark(names, name, &mut marks);
    }
    Ok(marks)
}

// Marks a name, where it is one of these; its place is found by binary search.
fn mark(names: &[ResName], name: &Text, marks: &mut Vec<bool>)
    requires rising { Rising names.now }
    requires size { length marks.old.items ≡ length names.now }
    ensures { (named : List (List ℕ)) → marks.old.items ≡ map (is_among named) names.now
        → marks.new.items ≡ map (is_among (named ++ name.now ∷ [])) names.now }
{
    match names.binary_search_by(|other| other.as_str().cmp(name.as_str())) {
        Ok(place) => marks[place] = true,
        Err(_) => {}
    }
}
