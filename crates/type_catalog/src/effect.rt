//! What a change of properties asks for.

/// A resource stays as it is, is updated in place, or is replaced by another.
#[derive(Clone, Copy, Debug, PartialEq, Eq)]
pub enum Effect {
    Same,
    InPlace,
    Replace,
}
