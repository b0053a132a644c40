//! The cloud file: the cloud that its bytes say, and the text that says a cloud. `read` answers to
//! `specs/Files.antt`, which reads a file key by key in byte order up to its first fault, and `text` to
//! `specs/Written.antt`. Nothing here opens a file or asks a cloud.
#![tactic(auto)]

mod alive;
mod draft;
mod fault;
mod keys;
mod paths;
mod reading;
mod sorts;
mod tables;
mod writing;

pub use fault::CloudFileFault;
pub use reading::read;
pub use writing::text;
