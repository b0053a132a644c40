//! The comparison of an image with what the cloud lists.
ghost use Rattle.std.specs.Prelude.{◌≡◌, Bool, Ok, None, Some};
ghost use Rattle.heat_plan.specs.declared.token.Token.{Token as token_type};
ghost use Rattle.step_relation.specs.Compared.{FindsNothing};
ghost use Rattle.opening_check.specs.Findings.{HasFound};

use crate::finding::Finding;
use crate::index::{index_of, index_of_list};
use crate::rows::first_unlike;
use crate::strangers::first_stranger;
use core_state::State;
use heat_plan::{Token, TryCopy};
use provider::Alive;
use std::alloc::{AllocError, Global};

/// Where an image and the cloud's list disagree first, with its token; none where they agree. It takes time
/// in proportion to n log n in rows, released tokens and listed resources.
pub fn compare(
    alloc: Global,
    s: &State,
    all: &[Alive],
) -> Result<Option<(Token, Finding)>, AllocError>
    ensures nothing { result ≡ Ok None → (leaving : token_type → Bool)
        → FindsNothing (record { state = s.now.state; alive = all.now; leaving = leaving }) }
    ensures found { (t : token_type) (finding : Finding) → result ≡ Ok (Some (t, finding))
        → (leaving : token_type → Bool)
        → HasFound (record { state = s.now.state; alive = all.now; leaving = leaving }) t finding }
{
    let index = index_of_list(alloc, all)?;
    if let Some(found) = first_unlike(s, &index, all)? {
        return Ok(Some(found));
    }
    let given_up = index_of(alloc, s.released())?;
    match first_stranger(s, &given_up, all) {
        Some(alive) => Ok(Some((alive.token.copy()?, Finding::Stranger))),
        None => Ok(None),
    }
}
