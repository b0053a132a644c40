//! Why a value is no template.
ghost use Rattle.std.specs.Prelude.{◌≡◌, option_map};

use heat_value::Path;
use hot_forms::Flaw;
use std::alloc::AllocError;

/// What is wrong with a template.
#[derive(Debug, Drop)]
pub enum HotFault {
    /// The first of its flaws, H01 to H24.
    Wrong(Flaw),
    /// There was no memory.
    Memory,
}

impl HotFault {
    ghost use Rattle.hot_tree.specs.Template.{fault_code, fault_path};

    /// The code that the line is noted with; want of memory has none.
    pub fn code(&self) -> Option<&'static str>
        ensures { option_map (λ c. c.now) result ≡ fault_code self.now }
    {
        match self {
            HotFault::Wrong(flaw) => Some(flaw.code.text()),
            HotFault::Memory => None,
        }
    }

    /// The path that is noted with the code, where it has one.
    pub fn path(&self) -> Option<&Path>
        ensures { option_map (λ p. p.now) result ≡ fault_path self.now }
    {
        match self {
            HotFault::Wrong(flaw) => Some(&flaw.path),
            HotFault::Memory => None,
        }
    }
}

impl From<AllocError> for HotFault {
    ghost use Rattle.std.specs.Prelude.{◌≡◌};
    ghost use Rattle.hot_tree.specs.declared.fault.HotFault.TheVariants.{Memory};

    ghost from_gives = { λ _ e. e ≡ Memory };

    fn from(_error: AllocError) -> HotFault {
        HotFault::Memory
    }
}
