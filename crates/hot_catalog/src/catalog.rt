//! The catalogue.
ghost use Rattle.std.specs.Prelude.{◌≡◌, [], IfOk, IfErr, OnOk, OnErr, None, map, option_map};
ghost use Rattle.heat_value.specs.Meaning.{data_of};
ghost use Rattle.hot_catalog.specs.Catalogs.{standing, after, with_many_kinds, read_flaw, IsFaultAt, IsFaultOf};
ghost use Rattle.type_catalog.specs.Registries.{kind_named};

use crate::CatalogFault;
use crate::check::members_in;
use crate::count::are_few;
use crate::definition::definitions_of;
use crate::flaw::catalogue_flaw;
use crate::kinds::Kinds;
use heat_value::{Path, Props, Seq, Text, TryCopy, Value};
use std::alloc::{AllocError, Global};
use type_catalog::{KindDef, Registry, named};

/// The kinds of the registry, and those that lines have given.
#[derive(Debug)]
pub struct Catalog {
    registered: Seq<KindDef>,
    given: Kinds,
}

impl Drop for Catalog {
    fn drop(self) {
        let Catalog {
            registered: _,
            given: _,
        } = self;
    }
}

impl Catalog {
    /// The kinds of a registry alone.
    pub fn new(alloc: Global, registry: &Registry) -> Result<Catalog, AllocError>
        ensures registered { IfOk result (λ c. c.registered ≡ map (λ j. j.kind) registry.now.judges) }
        ensures given { IfOk result (λ c. c.given ≡ []) }
    {
        let mut registered = Seq::new(alloc);
        for judge in registry.judges.as_slice() {
            registered.push(judge.kind.copy()?)?;
        }
        Ok(Catalog {
            registered,
            given: Kinds::new(alloc),
        })
    }

    /// Takes the kinds that a value defines, each in place of an earlier one of its name. A value that is
    /// refused, or want of memory, changes nothing.
    pub fn read(&mut self, alloc: Global, value: &Value) -> Result<(), CatalogFault>
        ensures right { OnOk result (read_flaw self.old (data_of value.now) ≡ None) }
        ensures taken { OnOk result (self.new ≡ after self.old (data_of value.now)) }
        ensures fault { IfErr result (λ e. IsFaultOf self.old (data_of value.now) e) }
        ensures same { OnErr result (self.new ≡ self.old) }
    {
        match catalogue_flaw(alloc, self.registered.as_slice(), value)? {
            Some(path) => Err(CatalogFault::L09(path)),
            None => self.take(alloc, value),
        }
    }

    // Takes the kinds that a value defines, where at most 256 stand then.
    fn take(&mut self, alloc: Global, value: &Value) -> Result<(), CatalogFault>
        ensures right { OnOk result (with_many_kinds (after self.old (data_of value.now)) ≡ None) }
        ensures taken { OnOk result (self.new ≡ after self.old (data_of value.now)) }
        ensures fault { IfErr result (λ e. IsFaultAt (with_many_kinds (after self.old (data_of value.now))) e) }
        ensures same { OnErr result (self.new ≡ self.old) }
    {
        let none = Props::new(alloc);
        let line = members_in(value, &none);
        if !are_few(self.registered.len(), self.given.as_slice(), line) {
            return Err(CatalogFault::L09(Path::root(alloc)));
        }
        self.given.put_all(definitions_of(alloc, line)?)?;
        Ok(())
    }

    /// The kind of this name, where it stands.
    pub fn kind(&self, name: &Text) -> Option<&KindDef>
        ensures { option_map (λ k. k.now) result ≡ kind_named name.now (standing self.now) }
    {
        match named(self.registered.as_slice(), name) {
            Some(kind) => Some(kind),
            None => named(self.given.as_slice(), name),
        }
    }
}
