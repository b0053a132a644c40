//! The files of a plan with their texts.
ghost use Rattle.std.specs.Prelude.{◌≡◌, option_map};
ghost use Rattle.heat_plan.specs.Named.{file_content};

use crate::{ByName, HasName};
use heat_value::{Equals, Text, TryCopy};
use std::alloc::AllocError;

/// A file that a template reads, with its text.
#[derive(Debug)]
pub struct File {
    pub name: Text,
    pub content: Text,
}

impl Drop for File {
    fn drop(self) {
        let File {
            name: _,
            content: _,
        } = self;
    }
}

impl HasName for File {
    ghost name_of = { λ f. f.name };

    fn name(&self) -> &Text {
        &self.name
    }
}

impl ByName<File> {
    /// The text of the file of this name.
    pub fn content_of(&self, name: &Text) -> Option<&Text>
        ensures { option_map (λ t. t.now) result ≡ file_content self.now name.now }
    {
        match self.first_named(name) {
            Some(file) => Some(&file.content),
            None => None,
        }
    }
}

impl TryCopy for File {
    fn copy(&self) -> Result<File, AllocError> {
        Ok(File {
            name: self.name.copy()?,
            content: self.content.copy()?,
        })
    }
}

impl Equals for File {
    fn equals(&self, other: &File) -> bool {
        self.name.equals(&other.name) && self.content.equals(&other.content)
    }
}
