//! How the parts of a function's argument are evaluated.
ghost use Rattle.std.specs.Prelude.{◌≡◌};
ghost use Rattle.eval_words.specs.Manners.{manner_of};

use crate::Function;

/// How the parts of an argument are evaluated.
#[derive(Clone, Copy, Debug, PartialEq, Eq)]
pub enum Manner {
    /// Each part as a value.
    Each,
    /// Each part as a value, but for the literal template.
    AllButTemplate,
    /// A condition, and the branch that it chooses.
    ChosenBranch,
    /// As a condition.
    Condition,
    /// Each part as a condition.
    Conditions,
}

impl Function {
    /// How its argument's parts are evaluated.
    pub fn manner(self) -> Manner
        ensures { result ≡ manner_of self }
    {
        match self {
            Function::Repeat => Manner::AllButTemplate,
            Function::If => Manner::ChosenBranch,
            Function::Not => Manner::Condition,
            Function::And | Function::Or => Manner::Conditions,
            Function::Parameter | Function::Resource | Function::Attribute => Manner::Each,
            Function::File | Function::Join | Function::Split | Function::Replace => Manner::Each,
            Function::ReplaceStrictly | Function::Digest | Function::MergeMaps => Manner::Each,
            Function::ReplaceInMap | Function::Concat | Function::ConcatUnique => Manner::Each,
            Function::Filter | Function::Contains | Function::FlagParameter => Manner::Each,
            Function::Equals => Manner::Each,
        }
    }
}
