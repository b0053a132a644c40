//! What every line is done with.

use std::alloc::Global;
use type_catalog::Registry;

/// The allocator, and what the program registers.
#[derive(Clone, Copy)]
pub struct Means<'a> {
    pub alloc: Global,
    pub registry: &'a Registry,
}
