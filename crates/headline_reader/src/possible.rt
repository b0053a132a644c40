//! The tokens that a history's calls name and that weren't given up, and the states in which each may be.
//! No other token can be alive where nothing was alive at first.
ghost use Rattle.std.specs.Prelude.{◌≡◌, ◌++◌, IfOk, OnOk};
ghost use Rattle.headline_reader.specs.Called.{called, called_by, could_be, given_up};

use crate::living::Living;
use crate::releases::{given_up, is_among};
use crate::states::states_of;
use core_state::{Entry, What};
use heat_plan::{StackName, Token};
use heat_value::{Seq, TryCopy};
use std::alloc::{AllocError, Global};

/// A token and its states.
#[derive(Debug)]
pub(crate) struct Possible {
    pub(crate) token: Token,
    pub(crate) states: Seq<Option<Living>>,
}

impl Drop for Possible {
    fn drop(self) {
        let Possible {
            token: _,
            states: _,
        } = self;
    }
}

/// For each call on the stack, its token with the states in which that may be at the end, where it was
/// never given up.
pub(crate) fn called(
    alloc: Global,
    entries: &[Entry],
    stack: &StackName,
) -> Result<Seq<Possible>, AllocError>
    ensures { IfOk result (λ ps.
        ps ≡ called (could_be entries.now) (given_up entries.now) stack.now entries.now) }
{
    let gone = given_up(alloc, entries)?;
    let mut all = Seq::new(alloc);
    for entry in entries {
        add_called(
            alloc,
            &mut all,
            entries,
            gone.as_slice(),
            stack,
            &entry.what,
        )?;
    }
    Ok(all)
}

// Where this is a call on the stack under a token that wasn't given up, that token and its states.
fn add_called(
    alloc: Global,
    all: &mut Seq<Possible>,
    entries: &[Entry],
    gone: &[Token],
    stack: &StackName,
    what: &What,
) -> Result<(), AllocError>
    ensures { OnOk result
        (all.new ≡ all.old ++ called_by (could_be entries.now) gone.now stack.now what.now) }
{
    match what {
        What::Call { token, .. } if token.stack == *stack && !is_among(token, gone) => {
            let states = states_of(alloc, entries, token)?;
            all.push(Possible {
                token: token.copy()?,
                states,
            })
        }
        _ => Ok(()),
    }
}
