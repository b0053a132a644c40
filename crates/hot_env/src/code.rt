//! The codes of what is wrong with an environment.
ghost use Rattle.std.specs.Prelude.{◌≡◌};

/// A code; each comes where the formats have it.
#[derive(Clone, Copy, Debug, PartialEq, Eq)]
pub enum EnvCode {
    /// A key is unknown, or its value has another shape.
    V01,
    /// What the language has and no plan can.
    V02,
}

impl EnvCode {
    ghost use Rattle.hot_env.specs.Codes.{code_text};

    /// The code as it is printed.
    pub fn text(self) -> &'static str
        ensures { result.now ≡ code_text self }
    {
        match self {
            EnvCode::V01 => "V01",
            EnvCode::V02 => "V02",
        }
    }
}
