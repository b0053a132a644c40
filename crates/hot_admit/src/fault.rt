//! Why a template's conditions have no values, and why it isn't admitted.
ghost use Rattle.std.specs.Prelude.{◌≡◌, option_map};
ghost use Rattle.hot_admit.specs.Codes.{flaw_at};

use crate::AdmitCode;
use heat_value::Path;
use std::alloc::AllocError;

/// What is wrong with a template's conditions.
#[derive(Debug, Drop)]
pub enum CondFault {
    /// Conditions name each other in a cycle: the least that is on one.
    C01(Path),
    /// The first expression that has no value.
    C02(Path),
    /// There was no memory.
    Memory,
}

impl CondFault {
    ghost use Rattle.hot_admit.specs.Faults.{cond_fault_code, cond_fault_path};

    /// The code that the line is noted with; want of memory has none.
    pub fn code(&self) -> Option<&'static str>
        ensures { option_map (λ c. c.now) result ≡ cond_fault_code self.now }
    {
        match self {
            CondFault::C01(_) => Some("C01"),
            CondFault::C02(_) => Some("C02"),
            CondFault::Memory => None,
        }
    }

    /// The path that is noted with the code, where it has one.
    pub fn path(&self) -> Option<&Path>
        ensures { option_map (λ p. p.now) result ≡ cond_fault_path self.now }
    {
        match self {
            CondFault::C01(path) | CondFault::C02(path) => Some(path),
            CondFault::Memory => None,
        }
    }
}

/// A code with the path of what it speaks of, from the template's root on; of a cycle of needs the path
/// is the names on it.
#[derive(Debug, Drop)]
pub struct AdmitFlaw {
    pub code: AdmitCode,
    pub path: Path,
}

/// Why a template isn't admitted.
#[derive(Debug, Drop)]
pub enum AdmitFault {
    /// The first of C01, C02 and A01 to A08, by the stated order.
    Wrong(AdmitFlaw),
    /// There was no memory.
    Memory,
}

impl AdmitFault {
    ghost use Rattle.hot_admit.specs.Faults.{admit_fault_code, admit_fault_path, as_admission};

    /// The code that the line is noted with; want of memory has none.
    pub fn code(&self) -> Option<&'static str>
        ensures { option_map (λ c. c.now) result ≡ admit_fault_code self.now }
    {
        match self {
            AdmitFault::Wrong(flaw) => Some(flaw.code.text()),
            AdmitFault::Memory => None,
        }
    }

    /// The path that is noted with the code, where it has one.
    pub fn path(&self) -> Option<&Path>
        ensures { option_map (λ p. p.now) result ≡ admit_fault_path self.now }
    {
        match self {
            AdmitFault::Wrong(flaw) => Some(&flaw.path),
            AdmitFault::Memory => None,
        }
    }

    /// The fault of conditions as one of admission.
    pub fn of_conditions(fault: CondFault) -> AdmitFault
        ensures { result ≡ as_admission fault }
    {
        match fault {
            CondFault::C01(path) => AdmitFault::at(AdmitCode::C01, path),
            CondFault::C02(path) => AdmitFault::at(AdmitCode::C02, path),
            CondFault::Memory => AdmitFault::Memory,
        }
    }

    /// The code at a path.
    pub fn at(code: AdmitCode, path: Path) -> AdmitFault
        ensures { result ≡ AdmitFault.Wrong (flaw_at code path) }
    {
        AdmitFault::Wrong(AdmitFlaw { code, path })
    }
}

impl From<AllocError> for CondFault {
    ghost use Rattle.std.specs.Prelude.{◌≡◌};
    ghost use Rattle.hot_admit.specs.declared.fault.CondFault.TheVariants.{Memory};

    ghost from_gives = { λ _ e. e ≡ Memory };

    fn from(_error: AllocError) -> CondFault {
        CondFault::Memory
    }
}

impl From<AllocError> for AdmitFault {
    ghost use Rattle.std.specs.Prelude.{◌≡◌};
    ghost use Rattle.hot_admit.specs.declared.fault.AdmitFault.TheVariants.{Memory};

    ghost from_gives = { λ _ e. e ≡ Memory };

    fn from(_error: AllocError) -> AdmitFault {
        AdmitFault::Memory
    }
}
