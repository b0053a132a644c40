//! The codes of what is wrong with a template's groups.
ghost use Rattle.std.specs.Prelude.{◌≡◌};

/// A code; each comes where the formats have it.
#[derive(Clone, Copy, Debug, PartialEq, Eq)]
pub enum GroupCode {
    /// A group's properties are off their form, its members would be too large, or two keys of one become one.
    G01,
    /// A member would have another resource's name, or no name at all.
    G02,
    /// A reference to a group has no meaning, or what it means is too large or too deep.
    G03,
}

impl GroupCode {
    ghost use Rattle.hot_groups.specs.Codes.{code_text};

    /// The code as it is printed.
    pub fn text(self) -> &'static str
        ensures { result.now ≡ code_text self }
    {
        match self {
            GroupCode::G01 => "G01",
            GroupCode::G02 => "G02",
            GroupCode::G03 => "G03",
        }
    }
}
