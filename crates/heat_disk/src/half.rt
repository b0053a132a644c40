//! The two files of a disk. Second is there for a snapshot beside a file that is still in use.
ghost use Rattle.std.specs.Prelude.{◌≡◌};
ghost use Rattle.heat_disk.specs.History.{is_same};

/// One of the two.
#[derive(Clone, Copy, Debug, PartialEq, Eq)]
pub enum Half {
    First,
    Second,
}

impl Half {
    /// Whether it is the same one.
    pub(crate) fn is(self, other: Half) -> bool
        ensures { result ≡ is_same self other }
    {
        match (self, other) {
            (Half::First, Half::First) | (Half::Second, Half::Second) => true,
            (Half::First, Half::Second) | (Half::Second, Half::First) => false,
        }
    }
}
