//! What is prepared for a step.

use heat_plan::Properties;
use heat_value::{Path, Text};
use type_catalog::Effect;

/// For a begin at an update node: the properties that the node's item has now, with what the change
/// of its row to them asks for; or the code and the path of the fault for which it has none. For any
/// other step `Plain`. `Memory`: there was none for it.
#[derive(Debug, Drop)]
pub enum Prepared {
    Props(Properties, Effect),
    Fault(Text, Path),
    Plain,
    Memory,
}
