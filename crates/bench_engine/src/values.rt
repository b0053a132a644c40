//! Evaluates one function of many parts, as a property of one resource or as the one condition of a
//! template, from the template's text on. Prints what came out.

mod functions;

use crate::reading::plan_of;
use crate::resolved::parts_of_last;
use anyhow::{Result, bail};
use functions::{Call, call_of};
use std::alloc::Global;

// Where the function stands.
#[derive(Clone, Copy, Debug, PartialEq, Eq)]
enum Place {
    Property,
    Condition,
}

/// The words are where the function stands (`property` or `condition`), which it is (`unique`, `filter`, `merge`,
/// `rename`, `replace`, `strict` or `fill`), and how many parts it has.
pub fn run(rt: &HostRuntime, words: &[&str]) -> Result<()> {
    let [place, call, size, ..] = words else {
        bail!("property or condition, a function, and how many parts");
    };
    let (place, call) = (place_of(place)?, call_of(call)?);
    println!(rt; "{}", done(rt.alloc(), place, call, size.parse::<u32>()?)?)?;
    Ok(())
}

fn place_of(word: &str) -> Result<Place> {
    match word {
        "property" => Ok(Place::Property),
        "condition" => Ok(Place::Condition),
        _ => bail!("property or condition"),
    }
}

// How many parts the property has, or how many conditions the plan has.
fn done(alloc: Global, place: Place, call: Call, size: u32) -> Result<usize> {
    let text = template(alloc, place, call, size)?;
    let plan = plan_of(alloc, text.as_str())?;
    match place {
        Place::Property => parts_of_last(alloc, &plan, &[]),
        Place::Condition => Ok(plan.conds().as_slice().len()),
    }
}

// A template of one resource with one property, or of one condition.
fn template(alloc: Global, place: Place, call: Call, size: u32) -> Result<String> {
    let (before, behind) = around(place);
    let mut text = String::from_str(alloc, "{\"heat_template_version\":\"2018-08-31\",")?;
    text.push_str(before)?;
    call.push(alloc, &mut text, size)?;
    text.push_str(behind)?;
    Ok(text)
}

// What stands before and behind the function.
fn around(place: Place) -> (&'static str, &'static str) {
    match place {
        Place::Property => (
            "\"resources\":{\"a\":{\"properties\":{\"p\":",
            "},\"type\":\"Net\"}}}",
        ),
        Place::Condition => ("\"conditions\":{\"c\":{\"equals\":[", ",0]}}}"),
    }
}
