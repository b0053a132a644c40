//! Why a script doesn't go on.

use heat_plan::Refusal;
use std::alloc::AllocError;
use template_plans::PlanFault;

/// Want of memory, words that ask for nothing here, or a refusal for another cause than memory.
#[derive(Clone, Copy, Debug, PartialEq, Eq)]
pub(crate) enum Halt {
    Memory,
    Words,
    Refused(Refusal),
}

impl From<AllocError> for Halt {
    fn from(_error: AllocError) -> Halt {
        Halt::Memory
    }
}

impl From<Refusal> for Halt {
    fn from(refusal: Refusal) -> Halt {
        match refusal {
            Refusal::Memory => Halt::Memory,
            refusal => Halt::Refused(refusal),
        }
    }
}

impl From<PlanFault> for Halt {
    fn from(fault: PlanFault) -> Halt {
        match &fault {
            PlanFault::Memory => Halt::Memory,
            _ => Halt::Words,
        }
    }
}
