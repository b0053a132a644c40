//! The kinds that lines have given, no two of one name.
ghost use Rattle.std.specs.Prelude.{◌≡◌, ◌<◌, ◌≤◌, ◌+◌, [], true, OnOk, OnErr, map};
ghost use Rattle.std.specs.Vec.{vec_len, vec_capacity};
ghost use Rattle.hot_catalog.specs.Catalogs.{with_kind as the_with_kind, with_all};
ghost use Rattle.type_catalog.specs.Names.{are_distinct};
ghost use Rattle.type_catalog.specs.Registries.{kind_name};

use std::alloc::{AllocError, Global};
use std::marker::Model;
use type_catalog::KindDef;

/// Kinds with names of their own.
#[derive(Debug)]
pub struct Kinds {
    all: Vec<KindDef>,
}

impl Model for Kinds {
    ghost use Rattle.std.specs.Prelude.{List};
    ghost use Rattle.type_catalog.specs.declared.kind.KindDef.{KindDef as kind_type};

    ghost Value = { List kind_type };

    ghost view = { λ k. k.all.items };

    ghost use Rattle.std.specs.Prelude.{◌≡◌, true, map};
    ghost use Rattle.type_catalog.specs.Names.{are_distinct};
    ghost use Rattle.type_catalog.specs.Registries.{kind_name};

    ghost invariant = { λ k. are_distinct (map kind_name k.all.items) ≡ true };
}

impl Drop for Kinds {
    fn drop(self) {
        let Kinds { all: _ } = self;
    }
}

impl Kinds {
    /// No kind.
    pub fn new(alloc: Global) -> Kinds
        ensures { result ≡ [] }
    {
        Kinds {
            all: Vec::new(alloc),
        }
    }

    /// The kinds in the order in which their names came.
    pub fn as_slice(&self) -> &[KindDef]
        ensures kinds { result.now ≡ self.now }
        ensures distinct { are_distinct (map kind_name self.now) ≡ true }
    {
        self.all.as_slice()
    }

    /// Puts kinds, each in place of the one of its name or behind the last. All their room is taken
    /// first: want of memory changes nothing.
    pub fn put_all(&mut self, kinds: Vec<KindDef>) -> Result<(), AllocError>
        ensures ok { OnOk result (self.new ≡ with_all kinds.items self.old) }
        ensures err { OnErr result (self.new ≡ self.old) }
    {
        self.all.reserve(kinds.len())?;
        for kind in kinds {
            put_kind(&mut self.all, kind);
        }
        Ok(())
    }
}

// Puts a kind in place of the one of its name, or behind the last, where there is room.
fn put_kind(kinds: &mut Vec<KindDef>, kind: KindDef)
    requires { vec_len kinds.old < vec_capacity kinds.old }
    ensures items { kinds.new.items ≡ the_with_kind kind kinds.old.items }
    ensures length { vec_len kinds.new ≤ vec_len kinds.old + 1 }
    ensures capacity { vec_capacity kinds.old ≤ vec_capacity kinds.new }
{
    for i in 0..kinds.len() {
        if kinds[i].name.as_str() == kind.name.as_str() {
            kinds[i] = kind;
            return;
        }
    }
    match kinds.push(kind) {
        Ok(()) => {}
        Err(_) => unreachable!(),
    }
}
