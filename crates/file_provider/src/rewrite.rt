//! What a call does to a token's file, before the inventory moves. It can be taken back.
use crate::card::Card;
use crate::file_name::FileName;
use crate::folder::Folder;
use heat_plan::Token;
use heat_value::Text;
use sim_cloud::Course;
use std::alloc::{AllocError, Global};
use std::io::ErrorKind;

/// A file's name, and its text before and behind a call; no text is no file.
#[derive(Drop)]
pub struct Rewrite {
    name: FileName,
    before: Option<Text>,
    after: Option<Text>,
}

impl Rewrite {
    /// The rewrite of a token's file from one card to another. All memory for it is taken here but for paths.
    pub fn new(
        alloc: Global,
        token: &Token,
        before: &Option<Card>,
        after: &Option<Card>,
    ) -> Result<Rewrite, AllocError> {
        Ok(Rewrite {
            name: FileName::of(alloc, token)?,
            before: text_of(alloc, before)?,
            after: text_of(alloc, after)?,
        })
    }

    /// Makes it, where it is one. How the inventory's call then goes: it fails where the file couldn't be changed,
    /// which is then as it was.
    pub fn make(&self, folder: &Folder) -> Result<Course, AllocError> {
        if self.before == self.after {
            return Ok(Course::Works);
        }
        match folder.set(&self.name, &self.after) {
            Ok(()) => Ok(Course::Works),
            Err(error) if error.kind() == ErrorKind::OutOfMemory => Err(AllocError),
            Err(_) => Ok(Course::Fails),
        }
    }

    /// Takes it back, where the inventory had no memory behind it. If that fails too the file stays ahead, and the
    /// run ends all the same.
    pub fn take_back(&self, folder: &Folder) {
        if self.before != self.after {
            let _ = folder.set(&self.name, &self.before);
        }
    }
}

// The text of a card; none of none.
fn text_of(alloc: Global, card: &Option<Card>) -> Result<Option<Text>, AllocError> {
    match card {
        Some(card) => Ok(Some(card.text(alloc)?)),
        None => Ok(None),
    }
}
