//! What a value is read as, by the place where it stands.
ghost use Rattle.std.specs.Prelude.{◌≡◌, option_map};
ghost use Rattle.heat_value.specs.Meaning.{data_of};
ghost use Rattle.hot_functions.specs.Places.{item_place as the_item_place, operand_place as the_operand_place};
ghost use Rattle.hot_functions.specs.Places.{argument_place as the_argument_place, plain_place as the_plain_place};
ghost use Rattle.hot_functions.specs.Places.{member_place as the_member_place, form_at as the_form_at};

use crate::form::{Form, condition_form_of, form_of};
use heat_value::Member;

/// How a value is read.
#[derive(Clone, Copy, Debug, PartialEq, Eq)]
pub enum Place {
    /// As a value in which references to resources may stand.
    Open,
    /// As a value in which none may stand, as in a condition.
    Barred,
    /// As a condition.
    Condition,
    /// As a list of conditions.
    Conditions,
    /// As the list of an `if`: a condition, and values.
    Branches,
    /// The same in a condition.
    BarredBranches,
}

/// How the item at a place of a list is read.
pub fn item_place(place: Place, at: usize) -> Place
    ensures { result ≡ the_item_place place at }
{
    match place {
        Place::Open => Place::Open,
        Place::Barred | Place::Condition => Place::Barred,
        Place::Conditions => Place::Condition,
        Place::Branches => {
            if at == 0 {
                return Place::Condition;
            }
            Place::Open
        }
        Place::BarredBranches => {
            if at == 0 {
                return Place::Condition;
            }
            Place::Barred
        }
    }
}

/// How the values of an object are read, of which this is the only member, if one is.
pub fn member_place(place: Place, lone: Option<&Member>) -> Place
    ensures { result ≡ the_member_place place
        (option_map (λ m. (m.now.key, data_of m.now.value)) lone.entry) }
{
    match lone {
        Some(member) => argument_place(place, member.key.as_str()),
        None => plain_place(place),
    }
}

// How a function's argument is read.
fn argument_place(place: Place, key: &str) -> Place
    ensures { result ≡ the_argument_place place key.now }
{
    match place {
        Place::Open => {
            if key == "if" {
                return Place::Branches;
            }
            Place::Open
        }
        Place::Barred => {
            if key == "if" {
                return Place::BarredBranches;
            }
            Place::Barred
        }
        Place::Condition => operand_place(key),
        Place::Branches => Place::Open,
        Place::Conditions | Place::BarredBranches => Place::Barred,
    }
}

// How a condition function's argument is read.
fn operand_place(key: &str) -> Place
    ensures { result ≡ the_operand_place key.now }
{
    if key == "not" {
        return Place::Condition;
    }
    if key == "and" {
        return Place::Conditions;
    }
    if key == "or" {
        return Place::Conditions;
    }
    Place::Barred
}

// How the values of a plain object are read.
fn plain_place(place: Place) -> Place
    ensures { result ≡ the_plain_place place }
{
    match place {
        Place::Open | Place::Branches => Place::Open,
        Place::Barred | Place::Condition => Place::Barred,
        Place::Conditions | Place::BarredBranches => Place::Barred,
    }
}

/// The form that a function's argument has to have, if the key names one there.
pub fn form_at(place: Place, key: &str) -> Option<Form>
    ensures { result ≡ the_form_at place key.now }
{
    match place {
        Place::Open | Place::Barred => form_of(key),
        Place::Condition => condition_form_of(key),
        Place::Conditions | Place::Branches | Place::BarredBranches => None,
    }
}
