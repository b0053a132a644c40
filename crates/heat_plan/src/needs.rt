//! The names that an item needs: in byte order, each once.
ghost use Rattle.std.specs.Prelude.{◌≡◌, ◌↔◌, [], IsTrue, List, ℕ};
ghost use Rattle.heat_plan.specs.Order.{Rising};

use crate::ResName;
use heat_value::{Equals, Seq, TryCopy};
use std::alloc::{AllocError, Global};
use std::cmp::Ordering;
use std::marker::Model;

/// Names in byte order, each once.
#[derive(Debug, Drop)]
pub struct Needs {
    names: Seq<ResName>,
}

impl Model for Needs {
    ghost use Rattle.std.specs.Prelude.{List, ℕ};
    ghost use Rattle.heat_plan.specs.Order.{Rising};

    ghost Value = { List (List ℕ) };

    ghost view = { λ n. n.names };

    ghost invariant = { λ n. Rising n.names };
}

impl Needs {
    /// No name.
    pub fn new(alloc: Global) -> Needs
        ensures { result ≡ [] }
    {
        Needs {
            names: Seq::new(alloc),
        }
    }

    /// Names that rise.
    pub fn from_rising(names: Seq<ResName>) -> Needs
        requires { Rising names }
        ensures { result ≡ names }
    {
        Needs { names }
    }

    /// The names, in byte order.
    pub fn as_slice(&self) -> &[ResName]
        ensures value { result.now ≡ self.now }
        ensures rising { Rising self.now }
    {
        self.names.as_slice()
    }
}

impl TryCopy for Needs {
    fn copy(&self) -> Result<Needs, AllocError> {
        Ok(Needs {
            names: self.names.copy()?,
        })
    }
}

impl Equals for Needs {
    fn equals(&self, other: &Needs) -> bool {
        self.names.equals(&other.names)
    }
}

/// Whether each name is below the one behind it, in byte order.
pub fn is_rising(names: &[ResName]) -> bool
    ensures { IsTrue result ↔ Rising names.now }
{
    for i in 1..names.len() {
        if names[i - 1].cmp(&names[i]) != Ordering::Less {
            return false;
        }
    }
    true
}
