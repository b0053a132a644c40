//! What an opening finds where the image and the cloud's list disagree.

/// How they disagree, at one token.
#[derive(Clone, Copy, Debug, PartialEq, Eq)]
pub enum Finding {
    /// A row's resource isn't listed, though it must be.
    Missing,
    /// It is listed, but not as the row says.
    Differs,
    /// A resource is listed that is nobody's.
    Stranger,
}
