//! What the words ask for, or why they ask for nothing.
ghost use Rattle.std.specs.Prelude.{◌≡◌};

use heat_value::Text;
use std::alloc::AllocError;
use thiserror::Error;

/// How many engines there are at first, where the words ask for as many as there may be.
pub const MOST_WORKERS: u8 = 64;

/// What the words say of the program's workers and of its cloud.
#[derive(Debug, Drop)]
pub struct Setup {
    /// How many engines there are at first, 1 to 64.
    pub workers: u8,
    /// The path of the cloud file; none where the words name no file.
    pub cloud: Option<Text>,
}

/// What the words ask for.
#[derive(Debug, Drop)]
pub enum Mode {
    /// A script is driven, by turns of the engines that its lines ask for.
    Drive(Setup),
}

impl Mode {
    ghost use Rattle.converge_call.specs.Words.{setup_of};

    /// What is set up.
    pub fn setup(self) -> Setup
        ensures { result ≡ setup_of self }
    {
        match self {
            Mode::Drive(setup) => setup,
        }
    }
}

/// Why there is no mode.
#[derive(Clone, Copy, Debug, Error, PartialEq, Eq)]
pub enum WordsFault {
    /// The words are none of the forms.
    #[error("the words are none of the forms")]
    Usage,
    /// There was no memory for what the words ask for.
    #[error("no memory")]
    Memory,
}

impl From<AllocError> for WordsFault {
    ghost use Rattle.converge_call.specs.declared.setup.WordsFault.TheVariants.{Memory};

    ghost from_gives = { λ _ e. e ≡ Memory };

    fn from(_error: AllocError) -> WordsFault {
        WordsFault::Memory
    }
}
