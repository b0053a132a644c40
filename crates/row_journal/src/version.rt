//! The two forms of a journal's bytes.

/// In the second one each record also has its number. It alone is written; both are read.
#[derive(Clone, Copy, Debug, PartialEq, Eq)]
pub enum Version {
    One,
    Two,
}
