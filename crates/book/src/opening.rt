//! What a book opens with.
ghost use Rattle.std.specs.Prelude.{◌≡◌, ◌<◌, ◌≤◌, ◌+◌, ◌^◌, ◌⊎◌, ℕ, IfErr, IfOk};
ghost use Rattle.step_relation.specs.Images.{HasKeepableRows, IsMade};
ghost use Rattle.step_relation.specs.Steps.{engine_limit, restart_changes};
ghost use Rattle.record_keeper.specs.Shown.{StandsFor};
ghost use Rattle.book.specs.Keeping.{IsStorable};
ghost use Rattle.book.specs.Starting.{IsStart, Opens, Renews, Starts, WhyUnstarted};

use crate::admitting::admit;
use crate::book::Book;
use crate::compacting::{Uncompacted, shorten};
use crate::history::History;
use crate::making::keep;
use crate::restarting::{Unrestarted, unread};
use core_state::{Made, State};
use heat_plan::{Refusal, Token};
use opening_check::Finding;
use provider::Provider;
use record_keeper::Keeper;
use std::alloc::Global;

/// A book; or keeper and cloud, where what the keeper holds is no image, or it and the cloud's list
/// disagree, with the token that was found first, where the keeper failed, the cloud didn't answer, no
/// numbers are left, or there was no memory.
pub enum Opened<K: Keeper, P: Provider> {
    Book(Book<K, P>),
    Foreign(K, P),
    Disagree(K, P, Token, Finding),
    DiskFault(K, P),
    CloudFault(K, P),
    Worn(K, P),
    Memory(K, P),
}

/// The state at an opening, and its copy, which steps change; and no entry, with room for Closed.
#[derive(Drop)]
pub(crate) struct Start {
    pub opening: State,
    pub state: State,
    pub entries: History,
}

/// Opens keeper and cloud, with so many engines. The cloud is asked for its list, once.
pub(crate) fn open_with<K: Keeper, P: Provider>(
    alloc: Global,
    keeper: &mut K,
    cloud: &mut P,
    workers: u8,
) -> Result<Start, Unrestarted>
    requires some { 1 ≤ workers }
    requires few { workers ≤ engine_limit }
    ensures { Opens (K.may_open keeper.old) workers (K.shown keeper.old) (K.shown keeper.new)
        (K.faults keeper.old) (K.faults keeper.new) (P.cloud cloud.old) (P.cloud cloud.new) result }
{
    match keeper.open(alloc) {
        Ok(image) => {
            match admit(alloc, &image, cloud) {
                Ok(()) => begin_with(alloc, image, keeper, workers),
                Err(why) => Err(why),
            }
        }
        Err(fault) => Err(unread(fault)),
    }
}

// Enlists so many engines in place of an image's, and has the keeper keep that. Where the keeper is old
// it is compacted first.
fn begin_with<K: Keeper>(
    alloc: Global,
    image: State,
    keeper: &mut K,
    workers: u8,
) -> Result<Start, Unrestarted>
    requires some { 1 ≤ workers }
    requires few { workers ≤ engine_limit }
    requires stands { StandsFor (K.shown keeper.old) image.state }
    requires made { IsMade image.state }
    requires keepable { HasKeepableRows image.state }
    requires storable { (n : ℕ) → IsStorable image.state (restart_changes image.state n) }
    ensures { Starts image.state workers (K.shown keeper.old) (K.shown keeper.new)
        (K.faults keeper.old) (K.faults keeper.new) result }
{
    let made = match restarted(alloc, &image, workers) {
        Ok(made) => made,
        Err(why) => return Err(why),
    };
    match renew(keeper, &image) {
        Ok(()) => {}
        Err(why) => return Err(why),
    }
    let start = match start_of(alloc, image, workers) {
        Ok(start) => start,
        Err(why) => return Err(why),
    };
    if keeper.reserve(made.changes.as_slice()).is_err() {
        return Err(Unrestarted::Memory);
    }
    match keep(keeper, made.changes.as_slice()) {
        Ok(()) => Ok(start),
        Err(_) => Err(Unrestarted::DiskFault),
    }
}

// The restart of an image with so many engines.
fn restarted(alloc: Global, image: &State, workers: u8) -> Result<Made, Unrestarted>
    requires some { 1 ≤ workers }
    requires few { workers ≤ engine_limit }
    ensures made { IfOk result (λ m. m.changes ≡ restart_changes image.now.state workers) }
    ensures below { IfOk result (λ m. image.now.state.next.engine + workers ≤ 2 ^ 62) }
    ensures cause { IfErr result (λ w. (w ≡ Unrestarted.Memory)
        ⊎ ((w ≡ Unrestarted.Worn) × (2 ^ 62 < image.now.state.next.engine + workers))) }
{
    match takeover_steps::restart(alloc, image, workers) {
        Ok(made) => Ok(made),
        Err(Refusal::Worn) => Err(Unrestarted::Worn),
        Err(_) => Err(Unrestarted::Memory),
    }
}

// Compacts a keeper that is old.
fn renew<K: Keeper>(keeper: &mut K, image: &State) -> Result<(), Unrestarted>
    requires stands { StandsFor (K.shown keeper.old) image.now.state }
    requires made { IsMade image.now.state }
    requires keepable { HasKeepableRows image.now.state }
    ensures { (n : ℕ) → Renews image.now.state n (K.shown keeper.old) (K.shown keeper.new)
        (K.faults keeper.old) (K.faults keeper.new) result }
{
    if !keeper.is_old() {
        return Ok(());
    }
    match shorten(keeper, image) {
        Ok(()) => {}
        Err(Uncompacted::DiskFault) => return Err(Unrestarted::DiskFault),
        Err(Uncompacted::Memory) => return Err(Unrestarted::Memory),
    }
    if keeper.is_old() {
        return Err(Unrestarted::Worn);
    }
    Ok(())
}

// An image with so many engines in place of its own, and a copy of it, behind which nothing was told.
fn start_of(alloc: Global, image: State, workers: u8) -> Result<Start, Unrestarted>
    requires some { 1 ≤ workers }
    requires few { workers ≤ engine_limit }
    ensures start { IfOk result (IsStart image.state workers) }
    ensures cause { IfErr result (λ w. (w ≡ Unrestarted.Memory)
        ⊎ ((w ≡ Unrestarted.Worn) × (2 ^ 62 < image.state.next.engine + workers))) }
{
    let made = restarted(alloc, &image, workers)?;
    let mut opening = image;
    opening.reserve(made.changes.len())?;
    opening.apply_all(made.changes);
    let state = opening.copy()?;
    let entries = History::new(alloc)?;
    Ok(Start {
        opening,
        state,
        entries,
    })
}
