//! Whose parameters they are.
use heat_plan::{StackName, StackNo};

/// A stack's name and number.
#[derive(Debug, Drop)]
pub struct Ids {
    pub stack: StackName,
    pub no: StackNo,
}
