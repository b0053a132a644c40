//! Why bytes are no cloud file.
use heat_value::Path;
use std::alloc::AllocError;

/// What is wrong with a cloud file.
#[derive(Debug, Drop)]
pub enum CloudFileFault {
    /// It is no JSON.
    NotJson,
    /// An unknown key, a missing one or a value of the wrong sort or range stands first here.
    Shape(Path),
    /// There was no memory.
    Memory,
}

impl From<AllocError> for CloudFileFault {
    ghost use Rattle.std.specs.Prelude.{◌≡◌};
    ghost use Rattle.cloud_file.specs.declared.fault.CloudFileFault.TheVariants.{Memory};

    ghost from_gives = { λ _ e. e ≡ Memory };

    fn from(_error: AllocError) -> CloudFileFault {
        CloudFileFault::Memory
    }
}
