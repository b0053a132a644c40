//! The codes of what is wrong with an evaluation.
ghost use Rattle.std.specs.Prelude.{◌≡◌};
ghost use Rattle.eval_words.specs.Codes.{code_text};

/// Why a value isn't evaluated. Of several causes in one function the lowest code counts, but for F07.
#[derive(Clone, Copy, Debug, PartialEq, Eq)]
pub enum FaultCode {
    /// An argument is off its form or of the wrong sort, or names what isn't there.
    F01,
    /// An index is out of range or isn't a whole number.
    F02,
    /// A delimiter or a key is empty.
    F03,
    /// A key stands nowhere in the template.
    F04,
    /// Two keys become one.
    F05,
    /// A result is too long or too deep.
    F06,
    /// The evaluation costs too much.
    F07,
}

impl FaultCode {
    /// The code as text.
    pub fn text(self) -> &'static str
        ensures { result.now ≡ code_text self }
    {
        match self {
            FaultCode::F01 => "F01",
            FaultCode::F02 => "F02",
            FaultCode::F03 => "F03",
            FaultCode::F04 => "F04",
            FaultCode::F05 => "F05",
            FaultCode::F06 => "F06",
            FaultCode::F07 => "F07",
        }
    }
}
