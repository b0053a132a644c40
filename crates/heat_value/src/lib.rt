//! Texts, lists and JSON values for all crates above, which contracts see as plain data.
//! A value is read exactly as `serde_json` reads it, and written as compact JSON; no grammar of JSON
//! stands here. No call changes anything but its arguments.
#![tactic(auto)]

mod copying;
mod equality;
mod fault;
mod path;
mod seq;
mod text;
mod value;

pub use copying::{TryCopy, copy_option};
pub use equality::Equals;
pub use fault::ValueFault;
pub use path::{Path, Step};
pub use seq::Seq;
pub use text::Text;
pub use value::coercion::text_of;
pub use value::nesting::nests_within;
pub use value::ordering::values_are_ordered;
pub use value::reading::MAX_DEPTH;
pub use value::{Items, Member, Props, Value};
