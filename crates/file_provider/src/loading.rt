//! The cloud of a folder, as its files say it.
ghost use Rattle.std.specs.Prelude.{◌≡◌, ◌≤◌, IfOk};
ghost use Rattle.file_provider.specs.Names.{name_of};

use crate::card::Card;
use crate::facts::facts_of;
use crate::file_cloud::FileCloud;
use crate::file_name::{FileName, token_of};
use crate::folder::Folder;
use crate::load_fault::{LoadFault, Wrong};
use heat_value::{Text, TryCopy};
use sim_cloud::{Held, Holdings};
use std::alloc::AllocError;
use std::io::{self, ErrorKind};

/// The cloud with the resources that the folder's files say.
pub fn load(folder: Folder) -> Result<FileCloud, LoadFault> {
    let mut held = Holdings::new(folder.rt.alloc());
    for name in &names(&folder)? {
        take(&folder, &mut held, name)?;
    }
    Ok(FileCloud::new(folder, held))
}

// The names of its files.
fn names(folder: &Folder) -> Result<Vec<Text>, LoadFault> {
    match folder.names() {
        Ok(names) => Ok(names),
        Err(error) => Err(unread(&folder.path, &error)?),
    }
}

// Takes the resource of a file. A token that is held already is that of a file that was listed twice.
fn take(folder: &Folder, held: &mut Holdings, name: &Text) -> Result<(), LoadFault> {
    let one = resource(folder, name)?;
    if held.place_of(&one.what.token).is_none() {
        held.add(one)?;
    }
    Ok(())
}

// The resource of a file.
fn resource(folder: &Folder, name: &Text) -> Result<Held, LoadFault>
    ensures few { IfOk result (λ h. h.left ≤ 64) }
    ensures named { IfOk result (λ h. name_of h.what.token ≡ name.now) }
{
    let alloc = folder.rt.alloc();
    let Some(token) = token_of(alloc, name.as_str())? else {
        return Err(LoadFault::At(name.copy()?, Wrong::Name));
    };
    let bytes = match folder.read(&FileName::of(alloc, &token)?) {
        Ok(bytes) => bytes,
        Err(error) => return Err(unread(name, &error)?),
    };
    match Card::read(alloc, &bytes)? {
        Some(card) => Ok(card.held(alloc, token)?),
        None => Err(LoadFault::At(name.copy()?, Wrong::Card)),
    }
}

// What is told of a file that wasn't read.
fn unread(name: &Text, error: &io::Error) -> Result<LoadFault, AllocError> {
    if error.kind() == ErrorKind::OutOfMemory {
        return Err(AllocError);
    }
    Ok(LoadFault::At(name.copy()?, Wrong::OutOfReach))
}
