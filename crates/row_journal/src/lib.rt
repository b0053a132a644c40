//! The journal over the two halves of any disk: its image is read, records are put behind it, and a
//! crash at any moment inside a call leaves the image from before it or after it. Nothing here knows
//! what a record says. The image is a statement on both halves as lists of bytes (`specs/Images.antt`),
//! and `read_image` finds it, or that there is none; what a crash may leave is stated in `specs/Ends.antt`.
#![tactic(auto)]

mod adding;
mod buffer;
mod contents;
mod fault;
mod headers;
mod image_laws;
mod images;
mod journal;
mod laws;
mod looking;
mod mending;
mod opening;
mod pending;
mod place;
mod reading;
mod records;
mod snapshots;
mod taking;
mod version;
mod word;

pub use contents::Contents;
pub use fault::ReadFault;
pub use headers::{Header, read_header};
pub use image_laws::one_image;
pub use images::{Image, read_image};
pub use journal::Journal;
pub use laws::journals_survive;
pub use opening::{Imaged, Recovered};
pub use place::Place;
pub use records::{Payload, Records, read_records};
pub use version::Version;
