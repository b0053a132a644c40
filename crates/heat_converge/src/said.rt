//! What the program says of how it ended.
ghost use Rattle.std.specs.Prelude.{◌≡◌};
ghost use Rattle.heat_converge.specs.Said.{found_of, said_of, said_of_exit};

use crate::ended::Ended;
use converge_call::{Exit, Finding};

/// The first words on standard error for this end.
pub fn words_for(ended: &Ended) -> &'static str
    ensures { result.now ≡ said_of ended.now }
{
    match ended {
        Ended::Called(exit) => words_for_exit(exit),
        Ended::CloudFile(_) => "cloud file",
    }
}

// What is said of each way to end.
fn words_for_exit(exit: &Exit) -> &'static str
    ensures { result.now ≡ said_of_exit exit.now }
{
    match exit {
        Exit::Done => "done",
        Exit::Usage => "usage",
        Exit::TooLong => "too long",
        Exit::ReadFault => "read fault",
        Exit::WriteFault => "write fault",
        Exit::DiskFault => "disk fault",
        Exit::Memory => "no memory",
        Exit::Foreign => "foreign journal",
        Exit::Disagree(_, _) => "disagree",
        Exit::CloudFault => "cloud fault",
        Exit::Worn => "worn",
    }
}

/// The word for what the opening found.
pub fn word_for(finding: Finding) -> &'static str
    ensures { result.now ≡ found_of finding }
{
    match finding {
        Finding::Missing => "missing",
        Finding::Differs => "differs",
        Finding::Stranger => "stranger",
    }
}
