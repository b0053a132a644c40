//! Why a text function has no result, each cause by its code.
ghost use Rattle.std.specs.Prelude.{◌≡◌, option_map, IsNone};
ghost use Rattle.hot_strings.specs.Faults.{code_of};

use heat_value::Path;
use std::alloc::AllocError;
use thiserror::Error;

/// Why there is no result. Of several causes the one with the lowest code counts.
#[derive(Debug, Drop, Error)]
pub enum StringFault {
    /// An index is out of range, or isn't a whole number of 0 or more.
    #[error("F02: the index is out of range or no whole number")]
    F02,
    /// A delimiter or a key is empty.
    #[error("F03: a delimiter or a key is empty")]
    F03,
    /// A key stands nowhere in the template.
    #[error("F04: a key stands nowhere in the template")]
    F04,
    /// The result passes `MAX_SIZE` bytes of compact JSON.
    #[error("F06: the result is too long")]
    F06,
    /// There was no memory.
    #[error("out of memory")]
    Memory,
}

impl StringFault {
    /// The fault's code; want of memory has none.
    pub fn code(&self) -> Option<&'static str>
        ensures { option_map (λ t. t.now) result ≡ code_of self.now }
    {
        match self {
            StringFault::F02 => Some("F02"),
            StringFault::F03 => Some("F03"),
            StringFault::F04 => Some("F04"),
            StringFault::F06 => Some("F06"),
            StringFault::Memory => None,
        }
    }

    /// Where the fault stands in a template. The text functions see no template, so this is always none;
    /// who evaluates one adds the place.
    pub fn path(&self) -> Option<&Path>
        ensures { IsNone result }
    {
        None
    }
}

impl From<AllocError> for StringFault {
    ghost use Rattle.hot_strings.specs.declared.fault.StringFault.TheVariants.{Memory};

    ghost from_gives = { λ _ e. e ≡ Memory };

    fn from(_error: AllocError) -> StringFault {
        StringFault::Memory
    }
}
