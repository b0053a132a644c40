//! What a provider tells of a resource that is ready.
use crate::{Properties, ResName};
use heat_value::{Equals, Seq, Text, TryCopy};
use std::alloc::AllocError;

/// A ready resource's id and attributes.
#[derive(Debug)]
pub struct Facts {
    pub id: Text,
    pub attrs: Properties,
}

impl Drop for Facts {
    fn drop(self) {
        let Facts { id: _, attrs: _ } = self;
    }
}

/// The facts of one name.
#[derive(Debug)]
pub struct KnownFacts {
    pub name: ResName,
    pub facts: Facts,
}

impl Drop for KnownFacts {
    fn drop(self) {
        let KnownFacts { name: _, facts: _ } = self;
    }
}

/// The facts that an item's functions may read, by name.
#[derive(Debug, Drop)]
pub struct Known {
    pub facts: Seq<KnownFacts>,
}

impl TryCopy for Facts {
    fn copy(&self) -> Result<Facts, AllocError> {
        Ok(Facts {
            id: self.id.copy()?,
            attrs: self.attrs.copy()?,
        })
    }
}

impl TryCopy for KnownFacts {
    fn copy(&self) -> Result<KnownFacts, AllocError> {
        Ok(KnownFacts {
            name: self.name.copy()?,
            facts: self.facts.copy()?,
        })
    }
}

impl TryCopy for Known {
    fn copy(&self) -> Result<Known, AllocError> {
        Ok(Known {
            facts: self.facts.copy()?,
        })
    }
}

impl Equals for Facts {
    fn equals(&self, other: &Facts) -> bool {
        self.id.equals(&other.id) && self.attrs.equals(&other.attrs)
    }
}

impl Equals for KnownFacts {
    fn equals(&self, other: &KnownFacts) -> bool {
        self.name.equals(&other.name) && self.facts.equals(&other.facts)
    }
}

impl Equals for Known {
    fn equals(&self, other: &Known) -> bool {
        self.facts.equals(&other.facts)
    }
}
