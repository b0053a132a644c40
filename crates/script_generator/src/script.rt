//! The lines of a generated script.
ghost use Rattle.std.specs.Prelude.{◌≡◌, ◌≤◌, IfOk};
ghost use Rattle.script_generator.specs.Script.{script_of};

use crate::body::{Body, body_text};
use heat_value::Text;
use std::alloc::{AllocError, Global};

/// The script of n resources. Their stack is created and driven to its end, driven for ten turns towards the second
/// body, then back to the first, and deleted.
pub fn generate(alloc: Global, n: u32) -> Result<Text, AllocError>
    requires some { 1 ≤ n }
    requires most { n ≤ 500 }
    ensures { IfOk result (λ t. t ≡ script_of n) }
{
    let first = body_text(alloc, Body::First, n)?;
    let second = body_text(alloc, Body::Second, n)?;
    let text = format!(in alloc;
        "create g {}\nrun\nupdate g {}\nrun 10\nupdate g {}\nrun\ndelete g\nrun\n",
        first.as_str(),
        second.as_str(),
        first.as_str()
    )?;
    Ok(Text::from_string(text))
}
