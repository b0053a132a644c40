//! One resource that a plan asks for.
use crate::{Kind, Needs, Properties, ResName};
use heat_value::{Equals, TryCopy};
use std::alloc::AllocError;

/// What becomes of a resource that no plan names any more.
#[derive(Clone, Copy, Debug, PartialEq, Eq)]
pub enum Policy {
    Delete,
    Retain,
}

/// A resource that a plan asks for; `needs` names the items that have to be there before it.
#[derive(Debug)]
pub struct Item {
    pub name: ResName,
    pub kind: Kind,
    pub props: Properties,
    pub needs: Needs,
    pub policy: Policy,
}

impl Drop for Item {
    fn drop(self) {
        let Item {
            name: _,
            kind: _,
            props: _,
            needs: _,
            policy: _,
        } = self;
    }
}

impl TryCopy for Item {
    fn copy(&self) -> Result<Item, AllocError> {
        Ok(Item {
            name: self.name.copy()?,
            kind: self.kind.copy()?,
            props: self.props.copy()?,
            needs: self.needs.copy()?,
            policy: self.policy,
        })
    }
}

impl Equals for Item {
    fn equals(&self, other: &Item) -> bool {
        self.name.equals(&other.name)
            && self.kind.equals(&other.kind)
            && self.props.equals(&other.props)
            && self.needs.equals(&other.needs)
            && self.policy == other.policy
    }
}
