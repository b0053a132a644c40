//! Why a folder isn't read.
ghost use Rattle.std.specs.Prelude.{◌≡◌};
ghost use Rattle.file_provider.specs.Faults.{words_of};

use heat_value::Text;
use std::alloc::AllocError;

/// What is wrong with a file, or with the folder.
#[derive(Clone, Copy, Debug, PartialEq, Eq)]
pub enum Wrong {
    /// It can't be read, or is no file.
    OutOfReach,
    /// Its name is no token's.
    Name,
    /// It says no resource.
    Card,
}

/// Why a folder isn't read.
#[derive(Debug, Drop)]
pub enum LoadFault {
    /// This is wrong with the file of this name, or with the folder of this path.
    At(Text, Wrong),
    /// There was no memory.
    Memory,
}

impl From<AllocError> for LoadFault {
    ghost use Rattle.file_provider.specs.declared.load_fault.LoadFault.TheVariants.{Memory};

    ghost from_gives = { λ _ e. e ≡ Memory };

    fn from(_error: AllocError) -> LoadFault {
        LoadFault::Memory
    }
}

impl Wrong {
    /// What is said of it.
    pub fn words(self) -> &'static str
        ensures { result.now ≡ words_of self }
    {
        match self {
            Wrong::OutOfReach => "it can't be read",
            Wrong::Name => "its name is no token's",
            Wrong::Card => "it says no resource",
        }
    }
}
