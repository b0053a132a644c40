//! A list of texts while it is made, which never takes more room as JSON than a result may.
ghost use Rattle.std.specs.Prelude.{◌≡◌, ◌≢◌, OnOk, IfErr};
ghost use Rattle.heat_value.specs.Data.{words, items, no_nodes, node_last};
ghost use Rattle.hot_strings.specs.Size.{Fits};
ghost use Rattle.hot_strings.specs.Faults.{IsOfResult};

use crate::StringFault;
use crate::size::{MAX_SIZE, room_after};
use heat_value::{Items, Text, Value};
use std::alloc::Global;
use std::marker::Model;

// What each text takes beside its bytes: two quotes and a comma, which for the first stands for the
// list's opening bracket.
const AROUND: usize = 3;

/// A growing list of texts, with the room that is left for it.
#[derive(Drop)]
pub struct Listing {
    list: Items,
    room: usize,
}

impl Model for Listing {
    ghost use Rattle.std.specs.Prelude.{◌≡◌, ◌+◌, true, length};
    ghost use Rattle.heat_value.specs.Data.{Nodes};
    ghost use Rattle.heat_value.specs.Code.{nodes_code};
    ghost use Rattle.heat_value.specs.Compact.{nodes_text};

    ghost Value = { Nodes };

    ghost coded = { nodes_code };

    ghost view = { λ l. l.list };

    ghost invariant = { λ l. l.room + length (nodes_text true l.list) ≡ 1048576 };
}

impl Listing {
    /// No text; the list's closing bracket takes room.
    pub fn new(alloc: Global) -> Listing
        ensures { result ≡ no_nodes }
    {
        Listing {
            list: Items::new(alloc),
            room: MAX_SIZE - 1,
        }
    }

    /// Puts a text behind the last, where the list may then be a result.
    #[tactic(auto, using(crate::proofs::Sizes::for_lists))]
    pub fn push(&mut self, alloc: Global, text: &str) -> Result<(), StringFault>
        ensures ok { OnOk result (self.new ≡ node_last self.old (words text.now)) }
        ensures err { IfErr result (λ e. IsOfResult e (items (node_last self.old (words text.now)))) }
    {
        if self.room < AROUND {
            return Err(StringFault::F06);
        }
        match room_after(self.room - AROUND, text) {
            Some(room) => {
                self.list.push(Value::Words(Text::from_str(alloc, text)?))?;
                self.room = room;
                Ok(())
            }
            None => Err(StringFault::F06),
        }
    }

    /// The list, as a result.
    #[tactic(auto, using(crate::proofs::Sizes::for_lists))]
    pub fn finish(self) -> Items
        requires { self ≢ no_nodes }
        ensures list { result ≡ self }
        ensures fits { Fits (items result) }
    {
        self.list
    }
}
