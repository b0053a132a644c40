//! The codes of why a template isn't admitted.
ghost use Rattle.std.specs.Prelude.{◌≡◌};
ghost use Rattle.hot_admit.specs.Codes.{code_text};

/// A code; each comes where the formats have it.
#[derive(Clone, Copy, Debug, PartialEq, Eq)]
pub enum AdmitCode {
    /// Conditions name each other in a cycle.
    C01,
    /// A condition has no value.
    C02,
    /// A resource's type isn't in the catalogue.
    A01,
    /// A resource or file that is named isn't there.
    A02,
    /// An attribute isn't one of the kind.
    A03,
    /// Needs have a cycle.
    A04,
    /// A property isn't one of the kind.
    A05,
    /// A property that has to be there isn't.
    A06,
    /// There are more than 1,000 resources.
    A07,
    /// The language has it, and no plan can.
    A08,
}

impl AdmitCode {
    /// The code as it is printed.
    pub fn text(self) -> &'static str
        ensures { result.now ≡ code_text self }
    {
        match self {
            AdmitCode::C01 => "C01",
            AdmitCode::C02 => "C02",
            AdmitCode::A01 => "A01",
            AdmitCode::A02 => "A02",
            AdmitCode::A03 => "A03",
            AdmitCode::A04 => "A04",
            AdmitCode::A05 => "A05",
            AdmitCode::A06 => "A06",
            AdmitCode::A07 => "A07",
            AdmitCode::A08 => "A08",
        }
    }
}
