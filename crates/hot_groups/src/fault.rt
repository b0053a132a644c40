//! Why a template's groups can't be expanded.
ghost use Rattle.std.specs.Prelude.{◌≡◌, option_map};

use crate::GroupFlaw;
use heat_value::Path;
use std::alloc::AllocError;

/// Why a template's groups can't be expanded.
#[derive(Debug, Drop)]
pub enum GroupFault {
    /// The first of their flaws, G01, G02 or G03.
    Wrong(GroupFlaw),
    /// There was no memory.
    Memory,
}

impl GroupFault {
    ghost use Rattle.hot_groups.specs.Codes.{fault_code, fault_path};

    /// The code that the line is noted with; want of memory has none.
    pub fn code(&self) -> Option<&'static str>
        ensures { option_map (λ c. c.now) result ≡ fault_code self.now }
    {
        match self {
            GroupFault::Wrong(flaw) => Some(flaw.code.text()),
            GroupFault::Memory => None,
        }
    }

    /// The path that is noted with the code, where it has one.
    pub fn path(&self) -> Option<&Path>
        ensures { option_map (λ p. p.now) result ≡ fault_path self.now }
    {
        match self {
            GroupFault::Wrong(flaw) => Some(&flaw.path),
            GroupFault::Memory => None,
        }
    }
}

impl From<AllocError> for GroupFault {
    ghost use Rattle.std.specs.Prelude.{◌≡◌};
    ghost use Rattle.hot_groups.specs.declared.fault.GroupFault.TheVariants.{Memory};

    ghost from_gives = { λ _ e. e ≡ Memory };

    fn from(_error: AllocError) -> GroupFault {
        GroupFault::Memory
    }
}
