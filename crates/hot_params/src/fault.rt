//! Why parameters aren't bound.
ghost use Rattle.std.specs.Prelude.{◌≡◌, IfOk, option_map};
ghost use Rattle.hot_params.specs.Codes.{at_parameter, at_constraint};

use crate::ParamCode;
use heat_value::{Path, Step, Text, TryCopy};
use std::alloc::{AllocError, Global};

/// A code with the path of what it speaks of, from the template's root on.
#[derive(Debug, Drop)]
pub struct ParamFlaw {
    pub code: ParamCode,
    pub path: Path,
}

impl ParamFlaw {
    /// What is wrong with the parameter of this name.
    pub fn at_parameter(
        alloc: Global,
        name: &Text,
        code: ParamCode,
    ) -> Result<ParamFlaw, AllocError>
        ensures { IfOk result (λ f. f ≡ at_parameter name.now code) }
    {
        let mut path = Path::root(alloc);
        path.push(Step::Key(Text::from_str(alloc, "parameters")?))?;
        path.push(Step::Key(name.copy()?))?;
        Ok(ParamFlaw { code, path })
    }

    /// What is wrong with a constraint of that parameter.
    pub fn at_constraint(
        alloc: Global,
        name: &Text,
        place: usize,
        code: ParamCode,
    ) -> Result<ParamFlaw, AllocError>
        ensures { IfOk result (λ f. f ≡ at_constraint name.now place code) }
    {
        let mut flaw = ParamFlaw::at_parameter(alloc, name, code)?;
        flaw.path
            .push(Step::Key(Text::from_str(alloc, "constraints")?))?;
        flaw.path.push(Step::Index(place))?;
        Ok(flaw)
    }
}

/// What is wrong with parameters.
#[derive(Debug, Drop)]
pub enum ParamFault {
    /// The first of P01 to P06.
    Wrong(ParamFlaw),
    /// There was no memory.
    Memory,
}

impl ParamFault {
    ghost use Rattle.hot_params.specs.Bound.{fault_code, fault_path};

    /// The code that the line is noted with; want of memory has none.
    pub fn code(&self) -> Option<&'static str>
        ensures { option_map (λ c. c.now) result ≡ fault_code self.now }
    {
        match self {
            ParamFault::Wrong(flaw) => Some(flaw.code.text()),
            ParamFault::Memory => None,
        }
    }

    /// The path that is noted with the code, where it has one.
    pub fn path(&self) -> Option<&Path>
        ensures { option_map (λ p. p.now) result ≡ fault_path self.now }
    {
        match self {
            ParamFault::Wrong(flaw) => Some(&flaw.path),
            ParamFault::Memory => None,
        }
    }
}

impl From<AllocError> for ParamFault {
    ghost use Rattle.std.specs.Prelude.{◌≡◌};
    ghost use Rattle.hot_params.specs.declared.fault.ParamFault.TheVariants.{Memory};

    ghost from_gives = { λ _ e. e ≡ Memory };

    fn from(_error: AllocError) -> ParamFault {
        ParamFault::Memory
    }
}
