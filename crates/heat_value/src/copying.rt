//! Copies that may want memory, each equal to what it was made from.
ghost use Rattle.std.specs.Prelude.{◌≡◌, IfOk};

use std::alloc::AllocError;

/// A type whose values can be copied where there is memory.
pub trait TryCopy {
    /// A copy, equal to the value.
    fn copy(&self) -> Result<Self, AllocError>
        ensures { IfOk result (λ v. v ≡ self.now) };
}

/// A copy of the value, where there is one.
pub fn copy_option<T: TryCopy>(value: &Option<T>) -> Result<Option<T>, AllocError>
    ensures { IfOk result (λ v. v ≡ value.now) }
{
    match value {
        Some(value) => Ok(Some(value.copy()?)),
        None => Ok(None),
    }
}
