//! The top call: drives a book over a keeper and a cloud by a script, from the words and the bytes that come
//! in to the bytes that go out. The keeper, the cloud, the source and the sink are the caller's, of any type
//! that keeps the traits' contracts, and what is registered too, or what `converge_shipped` registers. It
//! prints nothing itself and opens no file. It answers to `HasDriven` of specs/Ends.antt, for each line to
//! `LineDoes` of specs/Lines.antt, and for the words that the program is called with to `IsForm` of
//! specs/Words.antt.
#![tactic(auto)]

mod chosen;
mod commands;
mod drive;
mod exit;
pub mod laws;
mod line;
mod means;
mod notes;
mod option;
mod restarts;
mod runs;
mod setup;
mod shipped;
mod shortening;
mod shows;
mod top;
mod types;
mod words;

pub use book::Finding;
pub use driver::Book;
pub use exit::Exit;
pub use record_keeper::{Keeper, Unkept};
pub use setup::{MOST_WORKERS, Mode, Setup, WordsFault};
pub use shipped::converge_shipped;
pub use top::{End, Outcome, converge, run_serial};
pub use words::words_of;
