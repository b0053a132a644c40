//! The codes of what is wrong with a template.
ghost use Rattle.std.specs.Prelude.{◌≡◌};

/// A code; each comes exactly where the formats have it.
#[derive(Clone, Copy, Debug, PartialEq, Eq)]
pub enum HotCode {
    /// The template isn't an object.
    H01,
    /// `heat_template_version` is missing or null.
    H02,
    /// A key of another language's templates stands.
    H03,
    /// The version is none of the list.
    H04,
    /// A section is unknown.
    H05,
    /// A section has another shape than it has to.
    H06,
    /// A name isn't 1 to 255 ASCII letters, digits, `_`, `.`, `-`.
    H07,
    /// A parameter isn't an object or has an unknown key.
    H08,
    /// A parameter's type is missing or none of the five.
    H09,
    /// A parameter's label, description, tags or flags have another shape.
    H10,
    /// A parameter's constraints aren't a list of constraints.
    H11,
    /// A constraint's argument is wrong, or doesn't suit the type.
    H12,
    /// A resource isn't an object or has an unknown key.
    H13,
    /// A resource's type is missing or isn't text.
    H14,
    /// A resource's properties are neither an object nor null.
    H15,
    /// A resource's metadata is neither an object nor null.
    H16,
    /// A `depends_on` is neither text nor a list of texts.
    H17,
    /// A `deletion_policy` is none of the three.
    H18,
    /// An `update_policy` is neither an object nor null.
    H19,
    /// A resource's condition is no condition expression.
    H20,
    /// An output isn't an object, lacks its value or has an unknown key.
    H21,
    /// A function's argument is off its form, or a function stands where it may not.
    H22,
    /// A condition is no condition expression, or refers to a resource.
    H23,
    /// A name of a parameter or condition isn't there.
    H24,
}

impl HotCode {
    ghost use Rattle.hot_forms.specs.Codes.{code_text};

    /// The code as it is printed.
    pub fn text(self) -> &'static str
        ensures { result.now ≡ code_text self }
    {
        match self {
            HotCode::H01 => "H01",
            HotCode::H02 => "H02",
            HotCode::H03 => "H03",
            HotCode::H04 => "H04",
            HotCode::H05 => "H05",
            HotCode::H06 => "H06",
            HotCode::H07 => "H07",
            HotCode::H08 => "H08",
            HotCode::H09 => "H09",
            HotCode::H10 => "H10",
            HotCode::H11 => "H11",
            HotCode::H12 => "H12",
            HotCode::H13 => "H13",
            HotCode::H14 => "H14",
            HotCode::H15 => "H15",
            HotCode::H16 => "H16",
            HotCode::H17 => "H17",
            HotCode::H18 => "H18",
            HotCode::H19 => "H19",
            HotCode::H20 => "H20",
            HotCode::H21 => "H21",
            HotCode::H22 => "H22",
            HotCode::H23 => "H23",
            HotCode::H24 => "H24",
        }
    }
}
