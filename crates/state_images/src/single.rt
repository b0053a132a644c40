//! Whether each number is claimed by one. Claims are sorted by number, so that those of one number stand side
//! by side.
ghost use Rattle.std.specs.Prelude.{◌↔◌, IfOk, IsTrue};
ghost use Rattle.std.specs.List.Sorted.{IsNonDecreasingBy, IsPermutation};
ghost use Rattle.state_images.specs.Claims.{Agree, AreSingle, NeighboursAgree, claimed};

use crate::claim::Claim;
use heat_plan::Equals;
use std::alloc::AllocError;

// Whether each number is claimed by one.
pub(crate) fn are_single(claims: Vec<Claim>) -> Result<bool, AllocError>
    ensures { IfOk result (λ b. IsTrue b ↔ AreSingle claims.items) }
{
    let sorted = by_number(claims)?;
    Ok(neighbours_agree(sorted.as_slice()))
}

// The claims by number.
fn by_number(claims: Vec<Claim>) -> Result<Vec<Claim>, AllocError>
    ensures same { IfOk result (λ v. IsPermutation claims.items v.items) }
    ensures sorted { IfOk result (λ v. IsNonDecreasingBy claimed v.items) }
{
    let mut sorted = claims;
    sorted.sort_by_key(|claim| claim.no)?;
    Ok(sorted)
}

// Whether neighbours of one number are claimed by one.
fn neighbours_agree(claims: &[Claim]) -> bool
    ensures { IsTrue result ↔ NeighboursAgree claims.now }
{
    for i in 1..claims.len() {
        if !agree(&claims[i - 1], &claims[i]) {
            return false;
        }
    }
    true
}

// Whether two claims of one number are by one.
fn agree(claim: &Claim, next: &Claim) -> bool
    ensures { IsTrue result ↔ Agree claim.now next.now }
{
    claim.no != next.no || claim.by.equals(&next.by)
}
