//! Bound parameters.
use heat_plan::Parameters;

/// The values of a template's parameters by their names, the pseudo parameters among them. Each
/// value nests at most 64 deep, which their type keeps.
#[derive(Debug, Drop)]
pub struct Bound {
    pub params: Parameters,
}
