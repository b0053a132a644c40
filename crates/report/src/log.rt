//! What was written, and what stood there before, so that it can be taken back.
ghost use Rattle.std.specs.Prelude.{◌≡◌, ◌<◌, ◌≤◌, ◌+◌, ◌++◌, ◌∷◌, [], OnOk, MatchOption, length};

use crate::brief::{SeenRow, SeenStack};
use heat_plan::{RowNo, StackName};
use std::alloc::{AllocError, Global};
use std::marker::Model;

/// What a number or a name had before it was written.
#[derive(Debug, Drop)]
pub(crate) enum Was {
    Row(RowNo, Option<SeenRow>),
    Stack(StackName, Option<SeenStack>),
}

/// All that was written, the last at the end.
#[derive(Drop)]
pub(crate) struct Log {
    all: Vec<Was>,
}

impl Model for Log {
    ghost use Rattle.std.specs.Prelude.{◌-◌};
    ghost use Rattle.std.specs.Coded.{codes};
    ghost use Rattle.heat_value.specs.Code.{data_code, members_code};
    ghost use Rattle.std.specs.Vec.{vec_len, vec_capacity};
    ghost use Rattle.keyed_table.specs.SortedRooms.{Roomy};
    ghost use Rattle.report.specs.declared.log.Was.{Was};

    ghost Value = { Roomy Was };

    ghost coded = { Prim.hlevel (codes, data_code, members_code) };

    ghost view = { λ l. record { items = l.all.items; spare = vec_capacity l.all - vec_len l.all } };
}

impl Log {
    /// Nothing written, and no room.
    pub(crate) fn new(alloc: Global) -> Log
        ensures { result.items ≡ [] }
    {
        Log {
            all: Vec::new(alloc),
        }
    }

    /// How much was written.
    pub(crate) fn len(&self) -> usize
        ensures { result ≡ length self.now.items }
    {
        self.all.len()
    }

    /// Makes room for one thing more.
    pub(crate) fn reserve(&mut self) -> Result<(), AllocError>
        ensures same { self.new.items ≡ self.old.items }
        ensures room { OnOk result (1 ≤ self.new.spare) }
    {
        self.all.reserve(1)
    }

    /// Puts down what stood there before, within the room.
    pub(crate) fn push(&mut self, was: Was)
        requires { 1 ≤ self.old.spare }
        ensures { self.new.items ≡ self.old.items ++ was ∷ [] }
    {
        match self.all.push(was) {
            Ok(()) => {}
            Err(_) => unreachable!(),
        }
    }

    /// Takes the last out.
    pub(crate) fn pop(&mut self) -> Option<Was>
        ensures { MatchOption result (self.old.items ≡ [])
            (λ was. self.old.items ≡ self.new.items ++ was ∷ []) }
    {
        self.all.pop()
    }
}
