//! One real file as a half of a disk: how it was come by, its calls, and that it is lost once a sync of
//! it failed.
ghost use Rattle.std.specs.Prelude.{◌≡◌, ◌↔◌, ◌≤◌, length, IfOk, IsErr};
ghost use Rattle.heat_disk.specs.Memory.{no_room, widened};
ghost use Rattle.heat_disk.specs.Files.{room_of, IsLostFile};

use std::fs::{File, OpenOptions};
use std::os::unix::fs::FileExt;
use std::{fs, io};

/// What a file is opened for.
#[derive(Clone, Copy, Debug, PartialEq, Eq)]
pub(crate) enum Purpose {
    /// To be written too. A file that is missing is made.
    Use,
    /// To be read alone. Nothing is made.
    Look,
}

/// What a half's path leads to.
#[derive(Drop)]
pub(crate) enum Way {
    Open(File),
    /// Nothing lies there, and a look reads it as empty.
    Empty,
    /// It can't be reached, or a sync of it failed.
    Lost,
}

/// A half, and the room that was asked for. No call spends of the room, since a file takes none of our
/// memory.
#[derive(Drop)]
pub(crate) struct Opened {
    way: Way,
    end: u64,
    bytes: u64,
    calls: u64,
}

/// The way to the file at this path.
pub(crate) fn way_to(rt: &HostRuntime, purpose: Purpose, path: &str) -> Way {
    let file = match purpose {
        Purpose::Use => open(rt, path),
        Purpose::Look => File::open(rt, path),
    };
    match file {
        Ok(file) => Way::Open(file),
        Err(e) if purpose == Purpose::Look && e.kind() == io::ErrorKind::NotFound => Way::Empty,
        Err(_) => Way::Lost,
    }
}

// Opens the file, which is made where it is missing. Its folder is synced before any byte is written:
// else a crash of the machine could lose the name of a file whose bytes were synced.
fn open(rt: &HostRuntime, path: &str) -> io::Result<File> {
    let file = OpenOptions::new()
        .read(true)
        .write(true)
        .create(true)
        .open(rt, path)?;
    sync_folder(rt, path)?;
    Ok(file)
}

// Syncs the folder that holds the file, through links.
fn sync_folder(rt: &HostRuntime, path: &str) -> io::Result<()> {
    let place = fs::canonicalize(rt, path)?;
    match place.parent() {
        Some(folder) => File::open(rt, folder)?.sync_all(),
        None => Err(io::ErrorKind::NotFound.into()),
    }
}

impl Opened {
    /// A half that is come by in this way, without room.
    pub(crate) fn new(way: Way) -> Opened
        ensures { room_of result ≡ no_room }
    {
        Opened {
            way,
            end: 0,
            bytes: 0,
            calls: 0,
        }
    }

    /// Its room is at least this, and no less than before.
    pub(crate) fn widen(&mut self, end: u64, bytes: u64, calls: u64)
        ensures room { room_of self.new ≡ widened end bytes calls (room_of self.old) }
        ensures lost { IsLostFile self.new ↔ IsLostFile self.old }
    {
        self.end = if self.end < end { end } else { self.end };
        self.bytes = if self.bytes < bytes {
            bytes
        } else {
            self.bytes
        };
        self.calls = if self.calls < calls {
            calls
        } else {
            self.calls
        };
    }

    /// How many bytes the file has.
    pub(crate) fn size(&self) -> io::Result<u64>
        ensures { IsLostFile self.now → IsErr result }
    {
        match &self.way {
            Way::Open(file) => Ok(file.metadata()?.len()),
            Way::Empty => Ok(0),
            Way::Lost => Err(io::ErrorKind::NotFound.into()),
        }
    }

    /// Reads from a place on, as far as the buffer goes.
    pub(crate) fn read_at(&self, at: u64, buf: &mut [u8]) -> io::Result<usize>
        ensures count { IfOk result (λ n. n ≤ length buf.old) }
        ensures lost { IsLostFile self.now → IsErr result }
    {
        match &self.way {
            Way::Open(file) => read_on(file, at, buf),
            Way::Empty => Ok(0),
            Way::Lost => Err(io::ErrorKind::NotFound.into()),
        }
    }

    /// Writes all bytes from a place on.
    pub(crate) fn write_at(&self, at: u64, bytes: &[u8]) -> io::Result<()>
        ensures { IsLostFile self.now → IsErr result }
    {
        self.file()?.write_all_at(bytes, at)
    }

    /// Cuts the file to this length.
    pub(crate) fn cut(&self, len: u64) -> io::Result<()>
        ensures { IsLostFile self.now → IsErr result }
    {
        self.file()?.set_len(len)
    }

    /// Behind a sync that failed the system takes the bytes for synced that never reached the disk, and
    /// the next sync would say so. So the file is lost.
    pub(crate) fn sync(&mut self) -> io::Result<()>
        ensures room { room_of self.new ≡ room_of self.old }
        ensures fails { IsLostFile self.old → IsErr result }
        ensures lost { IsErr result ↔ IsLostFile self.new }
    {
        let outcome = self.sync_file();
        if outcome.is_err() {
            self.way = Way::Lost;
        }
        outcome
    }

    // Puts on the disk what the file has; a half without a file fails.
    fn sync_file(&self) -> io::Result<()>
        ensures { IsLostFile self.now → IsErr result }
    {
        self.file()?.sync_all()
    }

    // The open file.
    fn file(&self) -> io::Result<&File>
        ensures { IsLostFile self.now → IsErr result }
    {
        match &self.way {
            Way::Open(file) => Ok(file),
            Way::Empty | Way::Lost => Err(io::ErrorKind::NotFound.into()),
        }
    }
}

// Reads on until the buffer is full or the file ends.
fn read_on(file: &File, at: u64, buf: &mut [u8]) -> io::Result<usize>
    ensures { IfOk result (λ n. n ≤ length buf.old) }
{
    let mut done = 0;
    while done < buf.len() {
        let count = file.read_at(&mut buf[done..], at.saturating_add(done as u64))?;
        if count == 0 {
            break;
        }
        done += count;
    }
    Ok(done)
}
