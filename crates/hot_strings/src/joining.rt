//! Joining texts.
ghost use Rattle.std.specs.Prelude.{◌≡◌, IfOk, IfErr};
ghost use Rattle.heat_value.specs.Data.{words};
ghost use Rattle.hot_strings.specs.Size.{Fits};
ghost use Rattle.hot_strings.specs.Faults.{IsOfResult};
ghost use Rattle.hot_strings.specs.Joined.{joined};

use crate::StringFault;
use crate::draft::Draft;
use crate::size::MAX_SIZE;
use heat_value::Text;
use std::alloc::Global;

/// The items in order, parted by the delimiter; F06 where that is too long.
pub fn join(alloc: Global, delimiter: &Text, items: &[Text]) -> Result<Text, StringFault>
    ensures ok { IfOk result (λ t. t ≡ joined delimiter.now items.now) }
    ensures fits { IfOk result (λ t. Fits (words t)) }
    ensures err { IfErr result (λ e. IsOfResult e (words (joined delimiter.now items.now))) }
{
    let mut draft = Draft::new(alloc, MAX_SIZE);
    if let Some((first, others)) = items.split_first() {
        draft.push(first.as_str())?;
        for item in others {
            draft.push(delimiter.as_str())?;
            draft.push(item.as_str())?;
        }
    }
    Ok(draft.finish())
}
