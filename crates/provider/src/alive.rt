//! A resource that a cloud has.
ghost use Rattle.std.specs.Prelude.{◌≡◌};

use heat_plan::{Facts, Properties, Token};
use heat_value::{Equals, Text, TryCopy};
use std::alloc::AllocError;

/// An alive resource, under its kind's name. Its facts are told where it is ready, and free before.
#[derive(Debug)]
pub struct Alive {
    pub token: Token,
    pub kind: Text,
    pub props: Properties,
    pub facts: Facts,
    pub ready: bool,
}

impl Drop for Alive {
    fn drop(self) {
        let Alive {
            token: _,
            kind: _,
            props: _,
            facts: _,
            ready: _,
        } = self;
    }
}

impl Alive {
    /// Its token alone.
    pub fn into_token(self) -> Token
        ensures { result ≡ self.token }
    {
        let Alive {
            token,
            kind: _,
            props: _,
            facts: _,
            ready: _,
        } = self;
        token
    }
}

impl TryCopy for Alive {
    fn copy(&self) -> Result<Alive, AllocError> {
        Ok(Alive {
            token: self.token.copy()?,
            kind: self.kind.copy()?,
            props: self.props.copy()?,
            facts: self.facts.copy()?,
            ready: self.ready,
        })
    }
}

impl Equals for Alive {
    fn equals(&self, other: &Alive) -> bool {
        self.token.equals(&other.token)
            && self.kind.equals(&other.kind)
            && self.props.equals(&other.props)
            && self.facts.equals(&other.facts)
            && self.ready == other.ready
    }
}
