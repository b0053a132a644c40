//! The book: what it shows, and what its type keeps. Its calls stand by subject in the modules below.

mod halts;
mod notes;
mod orders;
mod reading;
mod recovery;
mod turns;
mod upkeep;

use crate::halting::Halt;
use crate::history::History;
use core_state::State;
use provider::Provider;
use record_keeper::Keeper;
use std::alloc::Global;
use std::marker::Model;
use std::snapshot::Snapshot;

/// The engine's state, its history since the opening, the keeper of its records and the cloud. Both are
/// kept too as they stood behind the opening, which contracts alone see.
pub struct Book<K: Keeper, P: Provider> {
    alloc: Global,
    opening: State,
    state: State,
    entries: History,
    keeper: K,
    cloud: P,
    keeper_then: Snapshot<K>,
    cloud_then: Snapshot<P>,
    halt: Option<Halt>,
}

impl<K: Keeper, P: Provider> Model for Book<K, P> {
    ghost use Rattle.std.specs.Coded.{codes};
    ghost use Rattle.heat_value.specs.Code.{data_code, members_code};
    ghost use Rattle.book.specs.Crashes.{IsLeft};
    ghost use Rattle.book.specs.Halts.{IsHaltedAs};
    ghost use Rattle.book.specs.Kept.{Shown, IsHeld, IsKept};

    ghost Value = { Shown K P };

    ghost coded = { Prim.hlevel (codes, data_code, members_code) };

    ghost view = { λ b. record {
      opening = b.opening.state;
      state = b.state.state;
      entries = b.entries.items;
      keeper = b.keeper;
      cloud = b.cloud;
      origin = record { keeper = b.keeper_then.value; cloud = b.cloud_then.value };
      halt = b.halt;
    } };

    ghost invariant = { λ b. IsKept b.opening.state (P.cloud b.cloud_then.value)
        b.state.state b.entries.items (P.cloud b.cloud) b.halt
        × (IsHeld (K.shown b.keeper_then.value) (K.shown b.keeper)
        (K.faults b.keeper_then.value) (K.faults b.keeper) b.state.state b.halt
        × (IsHaltedAs (K.faults b.keeper_then.value) (K.faults b.keeper) b.state.state b.halt
        × IsLeft b.opening.state (P.cloud b.cloud_then.value) (K.shown b.keeper_then.value)
        (K.shown b.keeper) b.state.state b.entries.items (P.cloud b.cloud) b.halt)) };
}
