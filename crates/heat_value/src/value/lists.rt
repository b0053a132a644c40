//! Making and reading lists of values.
ghost use Rattle.std.specs.Prelude.{◌≡◌, OnOk, OnErr};
ghost use Rattle.heat_value.specs.Data.{no_nodes, node_last};

use crate::{Items, Value};
use std::alloc::{AllocError, Global};

impl Items {
    ghost use Rattle.heat_value.specs.Meaning.{data_of, nodes_of};

    /// No value.
    pub fn new(alloc: Global) -> Items
        ensures { result ≡ no_nodes }
    {
        Items {
            all: Vec::new(alloc),
        }
    }

    /// The values, in order.
    pub fn as_slice(&self) -> &[Value]
        ensures { nodes_of result.now ≡ self.now }
    {
        self.all.as_slice()
    }

    /// Puts a value behind the last.
    #[tactic(auto, using(crate::proofs::Lists::nodes_of_push))]
    pub fn push(&mut self, value: Value) -> Result<(), AllocError>
        ensures ok { OnOk result (self.new ≡ node_last self.old (data_of value)) }
        ensures err { OnErr result (self.new ≡ self.old) }
    {
        self.all.push(value)?;
        Ok(())
    }
}
