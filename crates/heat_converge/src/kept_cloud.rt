//! The simulated cloud between two runs: a file that is read before the top call and written after it. What a
//! file holds, and that it keeps what was synced, is trusted here, and no clause says it.
ghost use Rattle.std.specs.Prelude.{◌≡◌, ◌≢◌, IfOk, IfErr};
ghost use Rattle.cloud_file.specs.Files.{IsFileOf};
ghost use Rattle.heat_converge.specs.Called.{IsEmptyCloud};
ghost use Rattle.heat_converge.specs.FileFaults.{IsWrong};

use crate::empty_cloud;
use crate::file_fault::FileFault;
use cloud_file::{CloudFileFault, read, text};
use heat_value::Text;
use sim_cloud::SimCloud;
use std::alloc::{AllocError, Global};
use std::fs::{self, File};
use std::io::{self, ErrorKind, Write};

/// Why the cloud file wasn't read or written.
#[derive(Debug, Drop)]
pub enum KeepFault {
    /// This is wrong with it.
    File(FileFault),
    /// There was no memory.
    Memory,
}

impl From<AllocError> for KeepFault {
    ghost use Rattle.heat_converge.specs.declared.kept_cloud.KeepFault.TheVariants.{Memory};

    ghost from_gives = { λ _ e. e ≡ Memory };

    fn from(_error: AllocError) -> KeepFault {
        KeepFault::Memory
    }
}

/// The cloud of the file at this path; an empty one where there is no such file.
pub fn load(rt: &HostRuntime, path: &Text) -> Result<SimCloud, KeepFault> {
    match fs::read(rt, path.as_str()) {
        Ok(bytes) => cloud_of(rt.alloc(), &bytes),
        Err(error) => cloud_without(rt.alloc(), error.kind()),
    }
}

// The cloud where no file was read, for this: an empty one exactly where there is no such file.
fn cloud_without(alloc: Global, kind: ErrorKind) -> Result<SimCloud, KeepFault>
    ensures none { kind ≡ ErrorKind.NotFound → IfErr result (λ e. e ≡ KeepFault.Memory) }
    ensures empty { IfOk result (λ c. (kind ≡ ErrorKind.NotFound) × IsEmptyCloud c) }
{
    match kind {
        ErrorKind::NotFound => Ok(empty_cloud(alloc)?),
        kind => Err(fault_of(kind)),
    }
}

// The cloud that a file's bytes say, or what is wrong with them.
fn cloud_of(alloc: Global, bytes: &[u8]) -> Result<SimCloud, KeepFault>
    ensures ok { IfOk result (λ c. IsFileOf bytes.now c) }
    ensures fault { IfErr result (λ e. IsWrong bytes.now e) }
{
    match read(alloc, bytes) {
        Ok(cloud) => Ok(cloud),
        Err(CloudFileFault::NotJson) => Err(KeepFault::File(FileFault::NotJson)),
        Err(CloudFileFault::Shape(path)) => Err(KeepFault::File(FileFault::Shape(path))),
        Err(CloudFileFault::Memory) => Err(KeepFault::Memory),
    }
}

// Want of memory, told apart from all else that a file may meet.
fn fault_of(kind: ErrorKind) -> KeepFault
    ensures memory { kind ≡ ErrorKind.OutOfMemory → result ≡ KeepFault.Memory }
    ensures other { kind ≢ ErrorKind.OutOfMemory → result ≡ KeepFault.File FileFault.OutOfReach }
{
    if kind == ErrorKind::OutOfMemory {
        KeepFault::Memory
    } else {
        KeepFault::File(FileFault::OutOfReach)
    }
}

/// Replaces the file at this path by one with the cloud's text. Where this fails the old one stays: the new
/// one is written and synced beside it, at the path with `.new` behind it, and then takes its name.
pub fn store(rt: &HostRuntime, path: &Text, cloud: &SimCloud) -> Result<(), KeepFault> {
    let text = text(rt.alloc(), cloud)?;
    let beside = format!(in rt.alloc(); "{}.new", path.as_str())?;
    match replace(rt, path.as_str(), beside.as_str(), text.as_str()) {
        Ok(()) => Ok(()),
        Err(error) => {
            let _ = fs::remove_file(rt, beside.as_str());
            Err(fault_of(error.kind()))
        }
    }
}

// Writes the file beside, and gives it the other's name once it is whole.
fn replace(rt: &HostRuntime, path: &str, beside: &str, text: &str) -> io::Result<()> {
    let mut file = File::create(rt, beside)?;
    file.write_all(text.as_bytes())?;
    file.sync_all()?;
    fs::rename(rt, beside, path)
}
