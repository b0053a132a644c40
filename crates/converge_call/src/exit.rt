//! How the program ends.
ghost use Rattle.std.specs.Prelude.{◌≡◌};
ghost use Rattle.converge_call.specs.Exits.{exit_of};

use book::{Finding, Unrestarted};
use heat_plan::Token;

/// The top call's status.
#[derive(Debug, PartialEq, Eq, Drop)]
pub enum Exit {
    /// The script was read to its end, and all is written.
    Done,
    /// The words are none of the forms. Nothing was read, written or asked.
    Usage,
    /// A line or the script passes its limit.
    TooLong,
    /// A read failed.
    ReadFault,
    /// A write failed.
    WriteFault,
    /// The keeper of records failed.
    DiskFault,
    /// There was no memory.
    Memory,
    /// What the keeper holds is no image; or, at a restart, another state than the book's.
    Foreign,
    /// The stored rows and the cloud's list disagree, first at this token.
    Disagree(Token, Finding),
    /// The cloud didn't tell what it has.
    CloudFault,
    /// A number or a key would have come to 2^62.
    Worn,
}

impl Exit {
    ghost use Rattle.converge_call.specs.Exits.{status_of};

    /// The status that the program ends with.
    pub fn code(&self) -> u8
        ensures { result ≡ status_of self.now }
    {
        match self {
            Exit::Done => 0,
            Exit::Usage => 2,
            Exit::TooLong => 3,
            Exit::ReadFault => 4,
            Exit::WriteFault => 5,
            Exit::DiskFault => 6,
            Exit::Memory => 7,
            Exit::Foreign => 8,
            Exit::Disagree(_, _) => 9,
            Exit::CloudFault => 10,
            Exit::Worn => 11,
        }
    }
}

/// How it ends where a restart is refused for this.
pub(crate) fn exit_for(why: Unrestarted) -> Exit
    ensures { result ≡ exit_of why }
{
    match why {
        Unrestarted::Foreign => Exit::Foreign,
        Unrestarted::Disagree(token, finding) => Exit::Disagree(token, finding),
        Unrestarted::DiskFault => Exit::DiskFault,
        Unrestarted::CloudFault => Exit::CloudFault,
        Unrestarted::Worn => Exit::Worn,
        Unrestarted::Memory => Exit::Memory,
    }
}
