//! What is wrong with the cloud file, and how that is told.
ghost use Rattle.std.specs.Prelude.{◌≡◌, IfOk};
ghost use Rattle.heat_converge.specs.FileFaults.{line_of};

use heat_value::{Path, Text};
use std::alloc::{AllocError, Global};

/// What is wrong with the cloud file.
#[derive(Debug, Drop)]
pub enum FileFault {
    /// It can't be read or written.
    OutOfReach,
    /// It is no JSON.
    NotJson,
    /// Its shape is wrong, first at this path.
    Shape(Path),
}

/// The line that tells it.
pub fn line_for(alloc: Global, fault: &FileFault) -> Result<Text, AllocError>
    ensures { IfOk result (λ t. t ≡ line_of fault.now) }
{
    match fault {
        FileFault::OutOfReach => Text::from_str(alloc, "it can't be read or written"),
        FileFault::NotJson => Text::from_str(alloc, "it is no JSON"),
        FileFault::Shape(path) => {
            let mut line = String::from_str(alloc, "its shape is wrong at ")?;
            line.push_str(path.text(alloc)?.as_str())?;
            Ok(Text::from_string(line))
        }
    }
}
