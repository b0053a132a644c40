//! The compaction of a keeper that is long, between lines.
ghost use Rattle.std.specs.Prelude.{◌≡◌, None};
ghost use Rattle.converge_call.specs.Carrying.{Carries};
ghost use Rattle.converge_call.specs.Shortening.{Shortens};

use crate::exit::Exit;
use book::Uncompacted;
use driver::Book;
use provider::Provider;
use record_keeper::Keeper;

/// Has the keeper compacted, where it is long.
pub fn shorten<K: Keeper, P: Provider>(book: &mut Book<K, P>) -> Result<(), Exit>
    requires { book.old.halt ≡ None }
    ensures shortens { Shortens K.shown book.old book.new result }
    ensures carries { Carries K.shown P.cloud book.old book.new }
{
    if !book.is_long() {
        return Ok(());
    }
    book.promises();
    match book.compact() {
        Ok(()) => Ok(()),
        Err(Uncompacted::DiskFault) => Err(Exit::DiskFault),
        Err(Uncompacted::Memory) => Err(Exit::Memory),
    }
}
