//! One pass becomes two, as for another thread.
ghost use Rattle.std.specs.Prelude.{◌≡◌, true, false, IfOk, IfErr, OnErr};
ghost use Rattle.book_lock.specs.Names.{child};

use crate::chronicle::Chronicle;
use crate::pass::Pass;
use crate::shared::Shared;
use crate::steps::cut;
use std::alloc::AllocError;

// The name becomes that of the elder, and that of the younger is returned.
fn child_names(name: &mut Vec<bool>) -> Result<Vec<bool>, AllocError>
    ensures younger { IfOk result (λ v. v.items ≡ child name.old.items true) }
    ensures elder { IfOk result (λ v. name.new.items ≡ child name.old.items false) }
    ensures memory { OnErr result (name.new.items ≡ name.old.items) }
{
    let mut younger = Vec::new(*name.allocator());
    younger.extend_from_slice(name.as_slice())?;
    younger.push(true)?;
    name.push(false)?;
    Ok(younger)
}

impl<T: Chronicle> Shared<T> {
    ghost use Rattle.book_lock.specs.Closing.{StandFor};
    ghost use Rattle.book_lock.specs.Standing.{IsPassOf, newcomer, renamed_pass};

    #[tactic(auto, using(crate::proofs::NamesLemmas::on_split))]
    /// The first of the two keeps Mine. The second has seen as much, and has added nothing.
    pub fn split(&self, mut pass: Pass<T>) -> Result<(Pass<T>, Pass<T>), (Pass<T>, AllocError)>
        requires { IsPassOf self.now pass }
        ensures elder { IfOk result (λ r. r.0 ≡ renamed_pass pass (child pass.name false)) }
        ensures younger { IfOk result (λ r. r.1 ≡ newcomer self.now (child pass.name true) pass.own.last) }
        ensures both { IfOk result (λ r. StandFor pass r.0 r.1) }
        ensures memory { IfErr result (λ e. e.0 ≡ pass) }
    {
        match child_names(&mut pass.name) {
            Ok(name) => {
                let seat = cut(&self.board, &mut pass.seat);
                let younger = Pass {
                    seat,
                    name,
                    holds: false,
                };
                Ok((pass, younger))
            }
            Err(error) => Err((pass, error)),
        }
    }
}
