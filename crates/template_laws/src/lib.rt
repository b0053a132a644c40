//! Laws of templates: what an item's properties depend on, which faults a value may have whose calls are in
//! their form, and that what was admitted is in its form. Nothing here is run: each function has an empty
//! body and stands for its clauses.
#![tactic(auto)]

mod admission_laws;
mod evaluation_laws;

pub use admission_laws::{admitted_faults_by_no_form, plans_fault_by_no_form};
pub use evaluation_laws::{faults_by_no_form, reads_only_named, reads_only_needs, reads_only_read};
