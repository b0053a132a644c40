//! JSON values whose numbers are whole. Contracts see a list and a map as plain data, so that `≡` on
//! values is equality of what they hold.
pub mod coercion;
mod conversion;
mod copies;
mod depth;
mod equality;
mod lists;
mod maps;
pub mod nesting;
pub mod ordering;
pub mod printing;
pub mod reading;

use crate::Text;
use std::marker::Model;

/// A value: null, a flag, a whole number, a text, a list, or a map from texts to values.
#[cycle(value)]
#[derive(Debug)]
pub enum Value {
    Null,
    Flag(bool),
    Whole(i64),
    Words(Text),
    Items(Items),
    Fields(Props),
}

impl Drop for Value {
    #[cycle(drops)]
    fn drop(self) {
        match self {
            Value::Null => {}
            Value::Flag(_) => {}
            Value::Whole(_) => {}
            Value::Words(_) => {}
            Value::Items(_) => {}
            Value::Fields(_) => {}
        }
    }
}

/// A list of values.
#[cycle(value)]
#[derive(Debug, Drop)]
pub struct Items {
    all: Vec<Value>,
}

/// A key with its value.
#[cycle(value)]
#[derive(Debug, Drop)]
pub struct Member {
    pub key: Text,
    pub value: Value,
}

/// A map from texts to values, whose keys rise strictly in byte order.
#[cycle(value)]
#[derive(Debug, Drop)]
pub struct Props {
    members: Vec<Member>,
}

impl Model for Items {
    ghost use Rattle.heat_value.specs.Data.{Nodes};
    ghost use Rattle.heat_value.specs.Code.{nodes_code};

    ghost Value = { Nodes };

    ghost coded = { nodes_code };

    ghost use Rattle.heat_value.specs.Meaning.{nodes_of, nodes_weight};

    ghost view = { λ a. nodes_of a.all.items };

    ghost size = { nodes_weight };

    ghost use Rattle.heat_value.specs.Falls.{most_le-nodes};

    ghost size_decreases = { λ a h. most_le-nodes a.all.items };
}

impl Model for Props {
    ghost use Rattle.heat_value.specs.Data.{Members, Rises};
    ghost use Rattle.heat_value.specs.Code.{members_code};

    ghost Value = { Members };

    ghost coded = { members_code };

    ghost use Rattle.heat_value.specs.Meaning.{members_of, members_weight};

    ghost view = { λ a. members_of a.members.items };

    ghost invariant = { λ a. Rises (members_of a.members.items) };

    ghost size = { members_weight };

    ghost use Rattle.heat_value.specs.Falls.{most_le-members};

    ghost size_decreases = { λ a h. most_le-members a.members.items };
}
