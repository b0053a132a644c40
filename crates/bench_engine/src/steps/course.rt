//! A state under way by steps, and the bytes of the lists of changes that made it, where they are kept.

use core_state::{Made, State};
use row_codec::{Sheet, write};
use sample_turns::apply;
use std::alloc::{AllocError, Global};

/// A state, and the bytes of each list of changes that was made, one list after another, if they are kept.
#[derive(Debug, Drop)]
pub struct Course {
    pub state: State,
    pub kept: Option<Vec<Sheet>>,
}

impl Course {
    /// Nothing is there, and no bytes are kept.
    pub fn unkept(alloc: Global) -> Course {
        Course {
            state: State::new(alloc),
            kept: None,
        }
    }

    /// Nothing is there, and the bytes of what is made are kept.
    pub fn kept(alloc: Global) -> Course {
        Course {
            state: State::new(alloc),
            kept: Some(Vec::new(alloc)),
        }
    }

    /// Makes a step's changes.
    pub fn make(&mut self, alloc: Global, made: Made) -> Result<(), AllocError> {
        if let Some(kept) = &mut self.kept {
            kept.push(write(alloc, made.changes.as_slice())?)?;
        }
        apply(&mut self.state, made)
    }
}
