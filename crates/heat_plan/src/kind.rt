//! A resource type.
use heat_value::{Equals, Seq, Text, TryCopy};
use std::alloc::AllocError;

/// A resource type: its name, its attributes, and in `soft` the properties that change in place.
#[derive(Debug)]
pub struct Kind {
    pub name: Text,
    pub attrs: Seq<Text>,
    pub soft: Seq<Text>,
}

impl Drop for Kind {
    fn drop(self) {
        let Kind {
            name: _,
            attrs: _,
            soft: _,
        } = self;
    }
}

impl TryCopy for Kind {
    fn copy(&self) -> Result<Kind, AllocError> {
        Ok(Kind {
            name: self.name.copy()?,
            attrs: self.attrs.copy()?,
            soft: self.soft.copy()?,
        })
    }
}

impl Equals for Kind {
    fn equals(&self, other: &Kind) -> bool {
        self.name.equals(&other.name)
            && self.attrs.equals(&other.attrs)
            && self.soft.equals(&other.soft)
    }
}
