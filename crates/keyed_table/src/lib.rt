//! Tables of records in the order in which their keys came, each record found by its key through an
//! index: the places of the records, sorted by their keys; and lists of records in the order of their
//! keys, each key once, found by binary search. Contracts see the list of the records alone. Nothing
//! here knows what a record is. The words on tables are `at`, `put` and `cut` of `heat_plan`, those on
//! sorted lists stand in `specs/Lists.antt`; what an index is stands in `specs/Orders.antt`.
#![tactic(auto)]

mod keyed;
mod keys;
mod list_table;
mod ordered;
mod places;
mod rewrite;
mod roomed;
mod sorted_list;
mod table;

pub use keyed::Keyed;
pub use list_table::ListTable;
pub use ordered::Ordered;
pub use places::close_up;
pub use rewrite::Rewrite;
pub use roomed::Roomed;
pub use sorted_list::SortedList;
pub use table::Table;
