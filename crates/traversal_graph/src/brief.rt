//! What a graph is built from, of each row of the stack.

use heat_plan::{ResName, RowNo};
use heat_value::{Equals, Seq, TryCopy};
use std::alloc::AllocError;

/// A row as the graph sees it.
#[derive(Debug)]
pub struct RowBrief {
    pub no: RowNo,
    pub name: ResName,
    pub requires_: Seq<RowNo>,
    pub replaces: Option<RowNo>,
}

impl Drop for RowBrief {
    fn drop(self) {
        let RowBrief {
            no: _,
            name: _,
            requires_: _,
            replaces: _,
        } = self;
    }
}

impl TryCopy for RowBrief {
    fn copy(&self) -> Result<RowBrief, AllocError> {
        let required = self.requires_.as_slice();
        Ok(RowBrief {
            no: self.no,
            name: self.name.copy()?,
            requires_: Seq::from_vec(Vec::from_slice(self.requires_.allocator(), required)?),
            replaces: self.replaces,
        })
    }
}

impl Equals for RowBrief {
    fn equals(&self, other: &RowBrief) -> bool {
        self.no == other.no
            && self.name.equals(&other.name)
            && self.requires_.equals(&other.requires_)
            && self.replaces.equals(&other.replaces)
    }
}
