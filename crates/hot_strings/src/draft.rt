//! A text while it is made, which never takes more room as JSON than it may.
ghost use Rattle.std.specs.Prelude.{◌≡◌, ◌≤◌, ◌++◌, [], OnOk, OnErr, IfErr, length};
ghost use Rattle.json.specs.Print.{quoted};
ghost use Rattle.heat_value.specs.Data.{words};
ghost use Rattle.hot_strings.specs.Faults.{IsOfLimit};

use crate::StringFault;
use crate::size::room_after;
use heat_value::Text;
use std::alloc::Global;
use std::marker::Model;

/// A growing text, seen as its bytes and the bytes of JSON that it may take, with the room that is left.
#[derive(Drop)]
pub struct Draft {
    text: String,
    room: usize,
    limit: usize,
}

impl Model for Draft {
    ghost use Rattle.std.specs.Prelude.{◌≡◌, ◌+◌, string_bytes, length};
    ghost use Rattle.json.specs.Print.{quoted};
    ghost use Rattle.hot_strings.specs.Size.{Drafted};

    ghost Value = { Drafted };

    ghost view = { λ d. record { text = string_bytes d.text; limit = d.limit } };

    ghost invariant = { λ d. d.room + length (quoted (string_bytes d.text)) ≡ d.limit };
}

impl Draft {
    /// No text, which takes two quotes.
    pub fn new(alloc: Global, limit: usize) -> Draft
        requires { 2 ≤ limit }
        ensures { result ≡ record { text = []; limit = limit } }
    {
        Draft {
            text: String::new(alloc),
            room: limit - 2,
            limit,
        }
    }

    /// Puts a part behind the text, where both together take no more room than they may.
    pub fn push(&mut self, part: &str) -> Result<(), StringFault>
        ensures ok { OnOk result (self.new.text ≡ self.old.text ++ part.now) }
        ensures limit { self.new.limit ≡ self.old.limit }
        ensures err { IfErr result (λ e. IsOfLimit e self.old.limit (words (self.old.text ++ part.now))) }
    {
        match room_after(self.room, part) {
            Some(room) => {
                self.text.push_str(part)?;
                self.room = room;
                Ok(())
            }
            None => Err(StringFault::F06),
        }
    }

    /// The text itself.
    pub fn finish(self) -> Text
        ensures text { result ≡ self.text }
        ensures fits { length (quoted result) ≤ self.limit }
    {
        Text::from_string(self.text)
    }
}
