//! Things that have a spelling by bytes: how they are written, and how they are read.
ghost use Rattle.std.specs.Prelude.{◌≡◌, IfOk, IfErr, List, ℕ};
ghost use Rattle.plan_codec.specs.Sheets.{behind};
ghost use Rattle.plan_codec.specs.Spellings.{IsUnique, Takes, Refuses};

use crate::sheet::Sheet;
use crate::unread::Unread;
use std::alloc::Global;

/// A type whose proper values have one spelling each, and which is read from bytes.
pub trait Readable: Drop {
    ghost spelled: { Self → List ℕ };

    ghost proper: { Self → Type 0 };

    /// What is spelled at the front of the bytes, and the bytes behind it.
    fn read<'a>(alloc: Global, bytes: &'a [u8]) -> Result<(Self, &'a [u8]), Unread>
        ensures ok { IfOk result (λ x. Takes spelled proper bytes.now x.0 x.1.now) }
        ensures err { IfErr result (Refuses spelled proper bytes.now) };

    ghost unique: { IsUnique spelled proper };
}

/// A type whose values are all proper, and are written.
pub trait Writable: Readable {
    /// Puts the spelling on the sheet.
    fn put(&self, sheet: &mut Sheet)
        ensures bytes { sheet.new ≡ behind sheet.old (Self.spelled self.now) }
        ensures proper { Self.proper self.now };
}
