//! Why a body has no plan.
ghost use Rattle.std.specs.Prelude.{◌≡◌, option_map};

use heat_value::Path;
use hot_admit::{AdmitFault, AdmitFlaw};
use hot_forms::Flaw;
use hot_params::{ParamFault, ParamFlaw};
use hot_tree::HotFault;
use std::alloc::AllocError;

/// What is wrong with a body's template, its parameters, or both.
#[derive(Debug)]
pub enum PlanFault {
    /// It is no template: the first of H01 to H24.
    Template(Flaw),
    /// Its parameters have no values: the first of P01 to P06.
    Parameters(ParamFlaw),
    /// It isn't admitted: the first of C01, C02 and A01 to A08.
    Admission(AdmitFlaw),
    /// There was no memory.
    Memory,
}

impl Drop for PlanFault {
    fn drop(self) {
        match self {
            PlanFault::Template(_) => {}
            PlanFault::Parameters(_) => {}
            PlanFault::Admission(_) => {}
            PlanFault::Memory => {}
        }
    }
}

impl PlanFault {
    ghost use Rattle.template_plans.specs.Faults.{fault_code, fault_path};

    /// The code that the line is noted with; want of memory has none.
    pub fn code(&self) -> Option<&'static str>
        ensures { option_map (λ c. c.now) result ≡ fault_code self.now }
    {
        match self {
            PlanFault::Template(flaw) => Some(flaw.code.text()),
            PlanFault::Parameters(flaw) => Some(flaw.code.text()),
            PlanFault::Admission(flaw) => Some(flaw.code.text()),
            PlanFault::Memory => None,
        }
    }

    /// The path that is noted with the code, where it has one.
    pub fn path(&self) -> Option<&Path>
        ensures { option_map (λ p. p.now) result ≡ fault_path self.now }
    {
        match self {
            PlanFault::Template(flaw) => Some(&flaw.path),
            PlanFault::Parameters(flaw) => Some(&flaw.path),
            PlanFault::Admission(flaw) => Some(&flaw.path),
            PlanFault::Memory => None,
        }
    }
}

impl From<HotFault> for PlanFault {
    ghost use Rattle.std.specs.Prelude.{◌≡◌};
    ghost use Rattle.template_plans.specs.Faults.{of_template};

    ghost from_gives = { λ fault e. e ≡ of_template fault };

    fn from(fault: HotFault) -> PlanFault {
        match fault {
            HotFault::Wrong(flaw) => PlanFault::Template(flaw),
            HotFault::Memory => PlanFault::Memory,
        }
    }
}

impl From<ParamFault> for PlanFault {
    ghost use Rattle.std.specs.Prelude.{◌≡◌};
    ghost use Rattle.template_plans.specs.Faults.{of_parameters};

    ghost from_gives = { λ fault e. e ≡ of_parameters fault };

    fn from(fault: ParamFault) -> PlanFault {
        match fault {
            ParamFault::Wrong(flaw) => PlanFault::Parameters(flaw),
            ParamFault::Memory => PlanFault::Memory,
        }
    }
}

impl From<AdmitFault> for PlanFault {
    ghost use Rattle.std.specs.Prelude.{◌≡◌};
    ghost use Rattle.template_plans.specs.Faults.{of_admission};

    ghost from_gives = { λ fault e. e ≡ of_admission fault };

    fn from(fault: AdmitFault) -> PlanFault {
        match fault {
            AdmitFault::Wrong(flaw) => PlanFault::Admission(flaw),
            AdmitFault::Memory => PlanFault::Memory,
        }
    }
}

impl From<AllocError> for PlanFault {
    ghost use Rattle.std.specs.Prelude.{◌≡◌};
    ghost use Rattle.template_plans.specs.declared.fault.PlanFault.TheVariants.{Memory};

    ghost from_gives = { λ _ e. e ≡ Memory };

    fn from(_error: AllocError) -> PlanFault {
        PlanFault::Memory
    }
}
