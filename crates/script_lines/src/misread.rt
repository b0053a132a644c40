//! What is wrong with a line, by itself.
ghost use Rattle.std.specs.Prelude.{◌≡◌, option_map};

use heat_value::Path;
use std::alloc::AllocError;

/// Why a line is refused before any state is looked at.
#[derive(Debug, Drop)]
pub enum Misread {
    /// It isn't UTF-8.
    L01,
    /// Its first word is none of those that lines begin with.
    L02,
    /// A word is missing or too many.
    L03,
    /// The stack's name is off its grammar.
    L04,
    /// A number is off its grammar or range.
    L05,
    /// The body or catalogue is no JSON.
    L06,
    /// It nests too deep, or a number in it isn't whole.
    L07(Path),
    /// The body is no object, lacks its template, or has a wrong key or value.
    L08(Path),
    /// There was no memory.
    Memory,
}

impl Misread {
    ghost use Rattle.script_lines.specs.Misreads.{misread_code, misread_path};

    /// The code that the line is noted with; want of memory has none.
    pub fn code(&self) -> Option<&'static str>
        ensures { option_map (λ c. c.now) result ≡ misread_code self.now }
    {
        match self {
            Misread::L01 => Some("L01"),
            Misread::L02 => Some("L02"),
            Misread::L03 => Some("L03"),
            Misread::L04 => Some("L04"),
            Misread::L05 => Some("L05"),
            Misread::L06 => Some("L06"),
            Misread::L07(_) => Some("L07"),
            Misread::L08(_) => Some("L08"),
            Misread::Memory => None,
        }
    }

    /// The path that is noted with the code, where it has one.
    pub fn path(&self) -> Option<&Path>
        ensures { option_map (λ p. p.now) result ≡ misread_path self.now }
    {
        match self {
            Misread::L07(path) | Misread::L08(path) => Some(path),
            Misread::L01 | Misread::L02 | Misread::L03 => None,
            Misread::L04 | Misread::L05 | Misread::L06 | Misread::Memory => None,
        }
    }
}

impl From<AllocError> for Misread {
    ghost use Rattle.std.specs.Prelude.{◌≡◌};
    ghost use Rattle.script_lines.specs.declared.misread.Misread.TheVariants.{Memory};

    ghost from_gives = { λ _ e. e ≡ Memory };

    fn from(_error: AllocError) -> Misread {
        Misread::Memory
    }
}
