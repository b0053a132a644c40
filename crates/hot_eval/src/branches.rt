//! The branches of an `if`, and what its condition picks.
ghost use Rattle.std.specs.Prelude.{◌≡◌, true, false, Some, IfOk};
ghost use Rattle.heat_value.specs.Data.{node};
ghost use Rattle.heat_value.specs.Meaning.{data_of, nodes_of};
ghost use Rattle.hot_eval.specs.Answers.{IsPicked, branch_nodes};
ghost use Rattle.hot_eval.specs.Noted.{IsPickedToRead};

use heat_value::{Items, Value};
use std::alloc::{AllocError, Global};

/// A branch that a condition picks.
#[derive(Clone, Copy)]
pub enum Picked<'a> {
    /// The one at this place.
    Branch(usize, &'a Value),
    /// Null, in place of one that isn't there.
    Null,
    /// None, since the condition has no value.
    None,
}

/// The first branch where the condition is true, the second or null where it is false, none where it has
/// no value.
pub fn pick<'a>(flag: Option<bool>, branches: &'a [Value]) -> Picked<'a>
    ensures outcome { IsPicked result flag (nodes_of branches.now) }
    ensures looks { IsPickedToRead result flag (nodes_of branches.now) }
{
    match flag {
        Some(true) => first_branch(branches),
        Some(false) => second_branch(branches),
        None => Picked::None,
    }
}

// What a true condition picks: the first branch, if there is one.
fn first_branch(branches: &[Value]) -> Picked
    ensures outcome { IsPicked result (Some true) (nodes_of branches.now) }
    ensures looks { IsPickedToRead result (Some true) (nodes_of branches.now) }
{
    match branches {
        [first, ..] => Picked::Branch(1, first),
        [] => Picked::None,
    }
}

// What a false condition picks: the second branch, and null where there is none.
fn second_branch(branches: &[Value]) -> Picked
    ensures outcome { IsPicked result (Some false) (nodes_of branches.now) }
    ensures looks { IsPickedToRead result (Some false) (nodes_of branches.now) }
{
    match branches {
        [_, second, ..] => Picked::Branch(2, second),
        [_] => Picked::Null,
        [] => Picked::Null,
    }
}

/// The condition's value, and the branch's if there is one.
pub fn condition_and(alloc: Global, flag: Value, branch: Option<Value>) -> Result<Items, AllocError>
    ensures { IfOk result (λ ns. ns ≡ node (data_of flag) (branch_nodes branch)) }
{
    let mut items = Items::new(alloc);
    items.push(flag)?;
    if let Some(branch) = branch {
        items.push(branch)?;
    }
    Ok(items)
}
