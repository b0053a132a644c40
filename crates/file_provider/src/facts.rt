//! What a resource tells once it is ready.
ghost use Rattle.std.specs.Prelude.{◌≡◌, IfOk};
ghost use Rattle.file_provider.specs.Names.{facts_for};

use crate::file_name::FileName;
use heat_plan::{Facts, Properties, Token};
use heat_value::TryCopy;
use std::alloc::{AllocError, Global};

/// The id is the name of its file, and the attributes are its properties.
pub fn facts_of(alloc: Global, token: &Token, props: &Properties) -> Result<Facts, AllocError>
    ensures { IfOk result (λ f. f ≡ facts_for token.now props.now) }
{
    Ok(Facts {
        id: FileName::of(alloc, token)?.into_text(),
        attrs: props.copy()?,
    })
}
