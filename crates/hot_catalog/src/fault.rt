//! Why a catalogue isn't taken.
ghost use Rattle.std.specs.Prelude.{◌≡◌, option_map};

use heat_value::Path;
use std::alloc::AllocError;

/// What is wrong with a catalogue.
#[derive(Debug, Drop)]
pub enum CatalogFault {
    /// The path of the first fault.
    L09(Path),
    /// There was no memory.
    Memory,
}

impl CatalogFault {
    ghost use Rattle.hot_catalog.specs.Catalogs.{fault_code, fault_path};

    /// The code that the line is noted with; want of memory has none.
    pub fn code(&self) -> Option<&'static str>
        ensures { option_map (λ c. c.now) result ≡ fault_code self.now }
    {
        match self {
            CatalogFault::L09(_) => Some("L09"),
            CatalogFault::Memory => None,
        }
    }

    /// The path that is noted with the code, where it has one.
    pub fn path(&self) -> Option<&Path>
        ensures { option_map (λ p. p.now) result ≡ fault_path self.now }
    {
        match self {
            CatalogFault::L09(path) => Some(path),
            CatalogFault::Memory => None,
        }
    }
}

impl From<AllocError> for CatalogFault {
    ghost use Rattle.std.specs.Prelude.{◌≡◌};
    ghost use Rattle.hot_catalog.specs.declared.fault.CatalogFault.TheVariants.{Memory};

    ghost from_gives = { λ _ e. e ≡ Memory };

    fn from(_error: AllocError) -> CatalogFault {
        CatalogFault::Memory
    }
}
