//! The folder: the names of its files, and what each says. A file is replaced whole, and no call reaches past
//! the folder but by a symbolic link that is the folder itself.
use crate::file_name::FileName;
use heat_value::Text;
use std::alloc::AllocError;
use std::fs::{self, File};
use std::io::{self, ErrorKind, Write};

// The file that is written before it takes the name of another. It is no resource's.
const DRAFT: &str = ".new";

/// A folder of the system, by its path.
#[derive(Drop)]
pub struct Folder {
    pub rt: HostRuntime,
    pub path: Text,
}

impl Folder {
    /// The names of its files but for the draft's, in byte order.
    pub fn names(&self) -> io::Result<Vec<Text>> {
        let alloc = self.rt.alloc();
        let mut names = Vec::new(alloc);
        for entry in fs::read_dir(&self.rt, self.path.as_str())? {
            let entry = entry?;
            if entry.file_name() != DRAFT {
                names.push(Text::from_str(alloc, entry.file_name())?)?;
            }
        }
        names.sort()?;
        Ok(names)
    }

    /// What a file says. One that is none, as a folder or a link, isn't read.
    pub fn read(&self, name: &FileName) -> io::Result<Vec<u8>> {
        let path = self.path_of(name.as_str())?;
        if !fs::symlink_metadata(&self.rt, path.as_str())?.is_file() {
            return Err(ErrorKind::InvalidInput.into());
        }
        fs::read(&self.rt, path.as_str())
    }

    /// Makes a file say this, or takes it away where nothing is given. Where this fails it is as it was.
    pub fn set(&self, name: &FileName, text: &Option<Text>) -> io::Result<()> {
        let path = self.path_of(name.as_str())?;
        match text {
            Some(text) => self.replace(path.as_str(), text.as_str()),
            None => self.remove(path.as_str()),
        }
    }

    // Writes the draft, and gives it the file's name once it is whole.
    fn replace(&self, path: &str, text: &str) -> io::Result<()> {
        let draft = self.path_of(DRAFT)?;
        self.remove(draft.as_str())?;
        let mut file = File::create_new(&self.rt, draft.as_str())?;
        file.write_all(text.as_bytes())?;
        file.sync_all()?;
        fs::rename(&self.rt, draft.as_str(), path)
    }

    // Takes a file away, where it is there.
    fn remove(&self, path: &str) -> io::Result<()> {
        match fs::remove_file(&self.rt, path) {
            Err(error) if error.kind() != ErrorKind::NotFound => Err(error),
            _ => Ok(()),
        }
    }

    // The path of a file.
    fn path_of(&self, name: &str) -> Result<String, AllocError> {
        format!(in self.rt.alloc(); "{}/{}", self.path.as_str(), name)
    }
}
