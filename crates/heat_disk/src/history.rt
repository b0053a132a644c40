//! The list of all writes, cuts and syncs of a disk in memory, and the longest image that it leaves.
ghost use Rattle.std.specs.Prelude.{◌≡◌, ◌+◌, ◌<◌, ◌≤◌, [], ◌∷◌, length, IfOk, OnOk};
ghost use Rattle.heat_disk.specs.History.{wrote, cut_to, synced, side, filled};
ghost use Rattle.heat_disk.specs.Replay.{seen_after, filled_after};
ghost use Rattle.heat_disk.specs.Events.{size_of, step_of};

use crate::bytes::overwrite;
use crate::half::Half;
use std::alloc::{AllocError, Global};
use std::marker::Model;

/// What was done to a half; the bytes of a write stand in the store.
#[derive(Clone, Copy)]
pub(crate) enum Act {
    Write { at: u64, len: usize },
    Cut { len: u64 },
    Sync,
}

impl Act {
    // How many bytes of the store are the event's.
    fn size(self) -> usize
        ensures { result ≡ size_of self }
    {
        match self {
            Act::Write { at: _, len } => len,
            Act::Cut { len: _ } | Act::Sync => 0,
        }
    }

    // Takes the bytes of a half and its longest image through the step.
    fn replay(
        self,
        bytes: &[u8],
        fill: u8,
        seen: &mut Vec<u8>,
        longest: &mut Vec<u8>,
    ) -> Result<(), AllocError>
        requires { size_of self ≡ length bytes.now }
        ensures seen { OnOk result (seen.new.items
            ≡ seen_after (step_of self bytes.now) seen.old.items) }
        ensures longest { OnOk result
            (longest.new.items
            ≡ filled_after fill (step_of self bytes.now) seen.old.items longest.old.items) }
    {
        match self {
            Act::Write { at, len: _ } => {
                let at = at as usize;
                let from = if at < seen.len() { at } else { seen.len() };
                let any = vec![in *seen.allocator(); fill; bytes.len()]?;
                overwrite(longest, from, &any)?;
                overwrite(seen, at, bytes)
            }
            Act::Cut { len } => {
                seen.truncate(len as usize);
                Ok(())
            }
            Act::Sync => {
                longest.clear();
                longest.extend_from_slice(seen)
            }
        }
    }
}

/// One act on one half.
#[derive(Clone, Copy)]
pub(crate) struct Event {
    half: Half,
    act: Act,
}

/// The bytes of all writes stand in one store, in the order of the events.
pub(crate) struct History {
    events: Vec<Event>,
    store: Vec<u8>,
}

impl Drop for History {
    fn drop(self) {
        let History {
            events: _,
            store: _,
        } = self;
    }
}

impl Model for History {
    ghost use Rattle.std.specs.Prelude.{◌≡◌, ◌-◌, [], length, vec_len, vec_capacity};
    ghost use Rattle.heat_disk.specs.Events.{Told, log_of, total};

    ghost Value = { Told };

    ghost view = { λ a. record {
      calls = log_of a.events.items a.store.items [];
      more_calls = vec_capacity a.events - vec_len a.events;
      more_bytes = vec_capacity a.store - vec_len a.store;
    } };

    ghost invariant = { λ a. total a.events.items ≡ length a.store.items };
}

impl History {
    /// A history in which nothing was done.
    pub(crate) fn new(alloc: Global) -> History
        ensures { result.calls ≡ [] }
    {
        History {
            events: Vec::new(alloc),
            store: Vec::new(alloc),
        }
    }

    /// Takes the memory for so many more calls, which write so many bytes.
    pub(crate) fn reserve(&mut self, calls: usize, bytes: usize) -> Result<(), AllocError>
        ensures same { self.new.calls ≡ self.old.calls }
        ensures calls { self.old.more_calls ≤ self.new.more_calls }
        ensures bytes { self.old.more_bytes ≤ self.new.more_bytes }
        ensures ok { OnOk result ((calls ≤ self.new.more_calls) × (bytes ≤ self.new.more_bytes)) }
    {
        self.events.reserve(calls)?;
        self.store.reserve(bytes)
    }

    /// Notes a write, within the room.
    pub(crate) fn wrote(&mut self, half: Half, at: u64, bytes: &[u8])
        requires call { 0 < self.old.more_calls }
        requires bytes { length bytes.now ≤ self.old.more_bytes }
        ensures calls { self.new.calls ≡ (half, wrote at bytes.now) ∷ self.old.calls }
        ensures more_calls { self.old.more_calls ≤ self.new.more_calls + 1 }
        ensures more_bytes { self.old.more_bytes ≤ self.new.more_bytes + length bytes.now }
    {
        let act = Act::Write {
            at,
            len: bytes.len(),
        };
        self.events.push_reserved(Event { half, act });
        match self.store.extend_from_slice(bytes) {
            Ok(()) => {}
            Err(_) => unreachable!(),
        }
    }

    /// Notes a cut, within the room.
    pub(crate) fn cut(&mut self, half: Half, len: u64)
        requires { 0 < self.old.more_calls }
        ensures calls { self.new.calls ≡ (half, cut_to len) ∷ self.old.calls }
        ensures more_calls { self.old.more_calls ≤ self.new.more_calls + 1 }
        ensures more_bytes { self.new.more_bytes ≡ self.old.more_bytes }
    {
        let act = Act::Cut { len };
        self.events.push_reserved(Event { half, act });
    }

    /// Notes a sync, within the room.
    pub(crate) fn synced(&mut self, half: Half)
        requires { 0 < self.old.more_calls }
        ensures calls { self.new.calls ≡ (half, synced) ∷ self.old.calls }
        ensures more_calls { self.old.more_calls ≤ self.new.more_calls + 1 }
        ensures more_bytes { self.new.more_bytes ≡ self.old.more_bytes }
    {
        let act = Act::Sync;
        self.events.push_reserved(Event { half, act });
    }

    /// The longest image of a half that a crash may leave, with `fill` where anything may stand. The
    /// half began with the bytes `start`.
    pub(crate) fn longest(&self, half: Half, start: &[u8], fill: u8) -> Result<Vec<u8>, AllocError>
        ensures { IfOk result (λ image. image.items
            ≡ filled fill (side half start.now self.now.calls)) }
    {
        let alloc = *self.store.allocator();
        let mut seen = Vec::from_slice(alloc, start)?;
        let mut longest = Vec::from_slice(alloc, start)?;
        let mut rest: &[u8] = &self.store;
        for event in &self.events {
            let (bytes, later) = rest.split_at(event.act.size());
            if event.half.is(half) {
                event.act.replay(bytes, fill, &mut seen, &mut longest)?;
            }
            rest = later;
        }
        Ok(longest)
    }
}
