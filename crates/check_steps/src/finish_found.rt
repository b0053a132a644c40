//! What the end of a job finds in the state and in its graph.

use core_state::{Job, SharedInput};
use heat_value::Seq;
use step_reads::Fresh;

/// A job with its work, the input that its node gives, the nodes behind the node, and those of them
/// that are ready then, each rising.
pub(crate) struct Passed<'a> {
    pub job: &'a Job,
    pub fresh: Fresh<'a>,
    pub input: SharedInput,
    pub succs: Seq<u32>,
    pub ready: Seq<u32>,
}

impl Drop for Passed<'_> {
    fn drop(self) {
        let Passed {
            job: _,
            fresh: _,
            input: _,
            succs: _,
            ready: _,
        } = self;
    }
}
