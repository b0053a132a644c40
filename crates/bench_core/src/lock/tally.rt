//! A value that counts how often it was held. Its list is empty.
ghost use Rattle.std.specs.Prelude.{[]};

use book_lock::Chronicle;

/// How often it was held.
#[derive(Drop)]
pub struct Tally {
    pub holds: u64,
}

impl Chronicle for Tally {
    type Entry = ();

    type Origin = ();

    ghost list = { λ _. [] };

    ghost origin = { λ _. tt };
}
