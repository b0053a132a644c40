//! What a line of the script says. `Line::read` takes every form and answers to `specs/Readings.antt`, which
//! has a case for each form and each fault; what a body asks for is in `specs/Requested.antt`.
//! Nothing here makes a plan or knows of a state: whether the stack is there, another layer says.
#![tactic(auto)]

mod behind;
mod forms;
mod head;
mod line;
mod misread;
mod request;
mod sort;
mod words;

pub use behind::MOST_TURNS;
pub use line::Line;
pub use misread::Misread;
pub use request::Body;
