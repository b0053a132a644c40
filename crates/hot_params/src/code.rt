//! The codes of what is wrong with parameters.
ghost use Rattle.std.specs.Prelude.{◌≡◌};

/// A code; each comes where the formats have it.
#[derive(Clone, Copy, Debug, PartialEq, Eq)]
pub enum ParamCode {
    /// A parameter is neither given nor has a default.
    P01,
    /// A given name is no parameter's.
    P02,
    /// A value doesn't convert to the parameter's type.
    P03,
    /// A constraint isn't met.
    P04,
    /// A custom constraint has no test.
    P05,
    /// A pattern is none, or is refused.
    P06,
}

impl ParamCode {
    ghost use Rattle.hot_params.specs.Codes.{code_text};

    /// The code as it is printed.
    pub fn text(self) -> &'static str
        ensures { result.now ≡ code_text self }
    {
        match self {
            ParamCode::P01 => "P01",
            ParamCode::P02 => "P02",
            ParamCode::P03 => "P03",
            ParamCode::P04 => "P04",
            ParamCode::P05 => "P05",
            ParamCode::P06 => "P06",
        }
    }
}
