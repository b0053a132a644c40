//! Why a value is no environment.
ghost use Rattle.std.specs.Prelude.{◌≡◌, option_map};

use crate::EnvFlaw;
use heat_value::Path;
use std::alloc::AllocError;

/// What is wrong with an environment.
#[derive(Debug, Drop)]
pub enum EnvFault {
    /// The first of its flaws, V01 or V02.
    Wrong(EnvFlaw),
    /// There was no memory.
    Memory,
}

impl EnvFault {
    ghost use Rattle.hot_env.specs.Codes.{fault_code, fault_path};

    /// The code that the line is noted with; want of memory has none.
    pub fn code(&self) -> Option<&'static str>
        ensures { option_map (λ c. c.now) result ≡ fault_code self.now }
    {
        match self {
            EnvFault::Wrong(flaw) => Some(flaw.code.text()),
            EnvFault::Memory => None,
        }
    }

    /// The path that is noted with the code, where it has one.
    pub fn path(&self) -> Option<&Path>
        ensures { option_map (λ p. p.now) result ≡ fault_path self.now }
    {
        match self {
            EnvFault::Wrong(flaw) => Some(&flaw.path),
            EnvFault::Memory => None,
        }
    }
}

impl From<AllocError> for EnvFault {
    ghost use Rattle.std.specs.Prelude.{◌≡◌};
    ghost use Rattle.hot_env.specs.declared.fault.EnvFault.TheVariants.{Memory};

    ghost from_gives = { λ _ e. e ≡ Memory };

    fn from(_error: AllocError) -> EnvFault {
        EnvFault::Memory
    }
}
