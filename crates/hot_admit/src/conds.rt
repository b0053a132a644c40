//! The values of a template's conditions.
use heat_plan::{ByName, Condition};
use heat_value::{Seq, Text};

/// Whether a resource or an output is wanted: whether its condition holds. Without one it does.
#[derive(Debug, Drop)]
pub struct Wanted {
    pub name: Text,
    pub wanted: bool,
}

/// Each condition's value, and which resources and outputs are wanted; each list is in byte order of
/// the names.
#[derive(Debug, Drop)]
pub struct Conds {
    pub conds: ByName<Condition>,
    pub resources: Seq<Wanted>,
    pub outputs: Seq<Wanted>,
}
