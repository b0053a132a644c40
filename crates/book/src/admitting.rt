//! What the cloud lists, compared with an image.
ghost use Rattle.std.specs.Prelude.{Bool};
ghost use Rattle.provider.specs.Calls.{Lists};
ghost use Rattle.provider.specs.Cloud.{Cloud};
ghost use Rattle.book.specs.Openings.{Admits};

use crate::restarting::Unrestarted;
use core_state::State;
use opening_check::compare;
use provider::{Alive, Listed, Provider};
use std::alloc::Global;

/// Asks the cloud what is alive, once, and compares the image with it.
pub(crate) fn admit<P: Provider>(
    alloc: Global,
    image: &State,
    cloud: &mut P,
) -> Result<(), Unrestarted>
    ensures { Admits image.now.state (P.cloud cloud.old) (P.cloud cloud.new) result }
{
    match cloud.list() {
        Listed::Got(all) => compared(alloc, image, all.as_slice()),
        Listed::Failed => Err(Unrestarted::CloudFault),
        Listed::Memory => Err(Unrestarted::Memory),
    }
}

// The comparison with what was listed.
fn compared(alloc: Global, image: &State, all: &[Alive]) -> Result<(), Unrestarted>
    ensures { (old new : Cloud) → Lists all.now old new → Admits image.now.state old new result }
{
    match compare(alloc, image, all) {
        Ok(None) => Ok(()),
        Ok(Some((token, finding))) => Err(Unrestarted::Disagree(token, finding)),
        Err(_) => Err(Unrestarted::Memory),
    }
}
