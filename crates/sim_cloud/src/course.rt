//! How a call goes.

/// A call works, fails with nothing done, or fails with its effect done. A call that has no effect, or
/// that its quota refuses, fails late with nothing done.
#[derive(Clone, Copy, Debug, PartialEq, Eq)]
pub enum Course {
    Works,
    Fails,
    FailsLate,
}
