//! The facts of what an item needs, among the tokens that calls name.
ghost use Rattle.std.specs.Prelude.{◌≡◌, ◌++◌, [], ◌∷◌, IfOk, Some, option_map};
ghost use Rattle.headline_reader.specs.Items.{facts_named, facts_under, known_of};

use crate::certain::ready_facts;
use crate::possible::Possible;
use heat_plan::{Facts, KnownFacts, ResName};
use heat_value::{Seq, TryCopy};
use std::alloc::{AllocError, Global};

/// The facts of all names, in their order; none where one of them isn't certainly there and ready.
pub(crate) fn known_of(
    alloc: Global,
    all: &[Possible],
    needs: &[ResName],
) -> Result<Option<Seq<KnownFacts>>, AllocError>
    ensures { IfOk result (λ known. known ≡ known_of all.now needs.now) }
{
    let mut known = Seq::new(alloc);
    for need in needs {
        match facts_under(all, need) {
            Some(facts) => known.push(known_facts(need, facts)?)?,
            None => return Ok(None),
        }
    }
    Ok(Some(known))
}

// The facts under their name.
fn known_facts(name: &ResName, facts: &Facts) -> Result<KnownFacts, AllocError>
    ensures { IfOk result (λ it. it ≡ record { name = name.now; facts = facts.now }) }
{
    Ok(KnownFacts {
        name: name.copy()?,
        facts: facts.copy()?,
    })
}

// The facts of the first that is certainly there and ready under the name.
fn facts_under<'a>(all: &'a [Possible], need: &ResName) -> Option<&'a Facts>
    ensures { option_map (λ f. f.now) result ≡ facts_under all.now need.now }
{
    for it in all {
        if let Some(facts) = facts_named(it, need) {
            return Some(facts);
        }
    }
    None
}

// The facts of a token that has the needed name, where it is ready.
fn facts_named<'a>(it: &'a Possible, need: &ResName) -> Option<&'a Facts>
    ensures { option_map (λ f. f.now) result ≡ facts_named need.now it.now }
{
    if it.token.name == *need {
        ready_facts(it)
    } else {
        None
    }
}
