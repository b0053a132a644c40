//! The functions of values and of conditions.

/// What an object with one key calls, by that key.
#[derive(Clone, Copy, Debug, PartialEq, Eq)]
pub enum Function {
    Parameter,
    Resource,
    Attribute,
    File,
    Join,
    Split,
    Replace,
    ReplaceStrictly,
    Repeat,
    Digest,
    MergeMaps,
    ReplaceInMap,
    Concat,
    ConcatUnique,
    Filter,
    Contains,
    If,
    /// `get_param` as a condition.
    FlagParameter,
    Equals,
    Not,
    And,
    Or,
}
