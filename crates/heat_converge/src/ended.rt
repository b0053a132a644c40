//! How the program ends: as the top call says, or for its cloud file.
ghost use Rattle.std.specs.Prelude.{◌≡◌};

use crate::file_fault::FileFault;
use crate::kept_cloud::KeepFault;
use converge_call::Exit;

/// How the program ends.
#[derive(Debug, Drop)]
pub enum Ended {
    /// As the top call says, or for want of memory beside it.
    Called(Exit),
    /// This is wrong with the cloud file.
    CloudFile(FileFault),
}

impl From<KeepFault> for Ended {
    ghost use Rattle.heat_converge.specs.Ended.{kept_of};

    ghost from_gives = { λ fault e. e ≡ kept_of fault };

    fn from(fault: KeepFault) -> Ended {
        match fault {
            KeepFault::File(fault) => Ended::CloudFile(fault),
            KeepFault::Memory => Ended::Called(Exit::Memory),
        }
    }
}

impl Ended {
    ghost use Rattle.heat_converge.specs.Ended.{code_of, ended_of};

    /// How it ends where the top call ended so and the cloud was then stored, or wasn't: that it wasn't is
    /// told only where all else went well.
    pub fn after(exit: Exit, stored: Result<(), KeepFault>) -> Ended
        ensures { result ≡ ended_of exit stored }
    {
        match (exit, stored) {
            (Exit::Done, Err(fault)) => Ended::from(fault),
            (exit, _) => Ended::Called(exit),
        }
    }

    /// The status that the program ends with.
    pub fn code(&self) -> u8
        ensures { result ≡ code_of self.now }
    {
        match self {
            Ended::Called(exit) => exit.code(),
            Ended::CloudFile(_) => 12,
        }
    }
}
