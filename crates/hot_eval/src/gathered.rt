//! A map put together from members that come in any order.
ghost use Rattle.std.specs.Prelude.{◌≡◌, OnOk, IfOk, MatchBool, true, false};
ghost use Rattle.heat_value.specs.Data.{no_members, put};
ghost use Rattle.heat_value.specs.Meaning.{data_of};
ghost use Rattle.hot_functions.specs.Forms.{stands};

use heat_value::{Props, Text, Value};
use std::alloc::{AllocError, Global};
use std::collections::BTreeMap;
use std::marker::Model;

/// The members of a map so far, by rising keys, in a tree: to put one there takes time that grows as the
/// logarithm of how many there are, also where keys fall.
#[derive(Drop)]
pub struct Gathered {
    tree: BTreeMap<Text, Value>,
}

impl Model for Gathered {
    ghost use Rattle.heat_value.specs.Code.{members_code};
    ghost use Rattle.heat_value.specs.Data.{Members};
    ghost use Rattle.hot_eval.specs.Gathered.{members_in};

    ghost Value = { Members };

    ghost coded = { members_code };

    ghost view = { λ g. members_in g.tree.entries };
}

impl Gathered {
    /// No members yet.
    pub fn new(alloc: Global) -> Gathered
        ensures { result ≡ no_members }
    {
        Gathered {
            tree: BTreeMap::new(alloc),
        }
    }

    /// Puts a value under a key, in place of what stood there.
    pub fn put(&mut self, key: Text, value: Value) -> Result<(), AllocError>
        ensures { OnOk result (self.new ≡ put key (data_of value) self.old) }
    {
        self.tree.insert(key, value)?;
        Ok(())
    }

    /// Puts a value under a key that doesn't stand yet; false where it does.
    pub fn put_new(&mut self, key: Text, value: Value) -> Result<bool, AllocError>
        ensures { IfOk result (λ b. MatchBool b
            ((stands key self.old ≡ false) × (self.new ≡ put key (data_of value) self.old))
            (stands key self.old ≡ true)) }
    {
        if self.tree.contains_key(&key) {
            return Ok(false);
        }
        self.put(key, value)?;
        Ok(true)
    }

    /// The map.
    pub fn finish(self, alloc: Global) -> Result<Props, AllocError>
        ensures { IfOk result (λ m. m ≡ self) }
    {
        let Gathered { tree } = self;
        let mut map = Props::new(alloc);
        for (key, value) in tree {
            map.put(key, value)?;
        }
        Ok(map)
    }
}
