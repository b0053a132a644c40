//! Reading a script by its lines and writing all of a text, over any source and sink. Beside the two
//! traits stand streams in memory, whose calls may fail, and the adapters over std, which tell nothing
//! of their content. A line is the next of `cut_lines` the bytes ahead; a failure has a count that rose.
#![tactic(auto)]

mod calls;
mod held;
pub mod laws;
mod lines;
mod mem_sink;
mod mem_source;
mod next;
mod put;
mod sink;
mod source;
mod std_sink;
mod std_source;
#[cfg(test)]
mod tests;

pub use lines::{LINE_LIMIT, LineReader, SCRIPT_LIMIT};
pub use mem_sink::MemSink;
pub use mem_source::MemSource;
pub use next::Next;
pub use put::{PutFault, put_all};
pub use sink::{Put, Sink};
pub use source::{Got, Source};
pub use std_sink::StdSink;
pub use std_source::StdSource;
