//! Why a function has no result, and why a value isn't evaluated.
ghost use Rattle.std.specs.Prelude.{◌≡◌, ◌∷◌};
ghost use Rattle.heat_value.specs.declared.path.Step.TheVariants.{Key, Index};
ghost use Rattle.eval_words.specs.Faults.{here as the_here, of_function as the_of_function};
ghost use Rattle.eval_words.specs.Faults.{at_path as the_at_path, IsSeenFrom};

use crate::FaultCode;
use heat_value::{Path, Step, Text, TryCopy};
use hot_strings::StringFault;
use std::alloc::{AllocError, Global};

/// Why a function has no result; where it stands isn't told yet.
#[derive(Debug, Drop)]
pub enum FunctionFault {
    /// A fault of the function's own.
    Wrong(FaultCode),
    /// There was no memory.
    Memory,
}

/// Why a value isn't evaluated, and where: a path from the value's root on.
#[derive(Debug, Drop)]
pub enum EvalFault {
    /// The first fault.
    Wrong(FaultCode, Path),
    /// There was no memory.
    Memory,
}

impl EvalFault {
    /// A fault of the value itself.
    pub fn here(alloc: Global, code: FaultCode) -> EvalFault
        ensures { result ≡ the_here code }
    {
        EvalFault::Wrong(code, Path::root(alloc))
    }

    /// The fault of a function, at the function's object.
    pub fn of_function(alloc: Global, fault: FunctionFault) -> EvalFault
        ensures { result ≡ the_of_function fault }
    {
        match fault {
            FunctionFault::Wrong(code) => EvalFault::here(alloc, code),
            FunctionFault::Memory => EvalFault::Memory,
        }
    }

    /// The same fault, seen from the object that has the value under this key.
    pub fn under_key(self, key: &Text) -> EvalFault
        ensures { IsSeenFrom (λ p. Key key.now ∷ p) self result }
    {
        match self {
            EvalFault::Wrong(code, path) => match key.copy() {
                Ok(key) => EvalFault::at_path(code, path.under(Step::Key(key))),
                Err(_) => EvalFault::Memory,
            },
            EvalFault::Memory => EvalFault::Memory,
        }
    }

    /// The same fault, seen from the list that has the value at this place.
    pub fn under_place(self, place: usize) -> EvalFault
        ensures { IsSeenFrom (λ p. Index place ∷ p) self result }
    {
        match self {
            EvalFault::Wrong(code, path) => {
                EvalFault::at_path(code, path.under(Step::Index(place)))
            }
            EvalFault::Memory => EvalFault::Memory,
        }
    }

    // The code at a path, if there was memory for that.
    fn at_path(code: FaultCode, path: Result<Path, AllocError>) -> EvalFault
        ensures { result ≡ the_at_path code path }
    {
        match path {
            Ok(path) => EvalFault::Wrong(code, path),
            Err(_) => EvalFault::Memory,
        }
    }
}

impl From<StringFault> for FunctionFault {
    ghost use Rattle.std.specs.Prelude.{◌≡◌};
    ghost use Rattle.eval_words.specs.Faults.{of_text_function};

    ghost from_gives = { λ f e. e ≡ of_text_function f };

    fn from(fault: StringFault) -> FunctionFault {
        match fault {
            StringFault::F02 => FunctionFault::Wrong(FaultCode::F02),
            StringFault::F03 => FunctionFault::Wrong(FaultCode::F03),
            StringFault::F04 => FunctionFault::Wrong(FaultCode::F04),
            StringFault::F06 => FunctionFault::Wrong(FaultCode::F06),
            StringFault::Memory => FunctionFault::Memory,
        }
    }
}

impl From<AllocError> for FunctionFault {
    ghost use Rattle.std.specs.Prelude.{◌≡◌};
    ghost use Rattle.eval_words.specs.declared.fault.FunctionFault.TheVariants.{Memory};

    ghost from_gives = { λ _ e. e ≡ Memory };

    fn from(_error: AllocError) -> FunctionFault {
        FunctionFault::Memory
    }
}

impl From<AllocError> for EvalFault {
    ghost use Rattle.std.specs.Prelude.{◌≡◌};
    ghost use Rattle.eval_words.specs.declared.fault.EvalFault.TheVariants.{Memory};

    ghost from_gives = { λ _ e. e ≡ Memory };

    fn from(_error: AllocError) -> EvalFault {
        EvalFault::Memory
    }
}
