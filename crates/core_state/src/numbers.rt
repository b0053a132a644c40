//! The next number of each sort.
ghost use Rattle.std.specs.Prelude.{◌≡◌, ◌<◌, ◌≤◌, ◌+◌, ◌^◌};

use heat_plan::WORN;
use std::marker::Model;

/// The next number of one sort, from 1 to 2^62; at 2^62 the sort is worn out.
#[derive(Clone, Copy, Debug, PartialEq, Eq)]
pub struct Next(u64);

impl Model for Next {
    ghost use Rattle.std.specs.Prelude.{ℕ, ◌<◌, ◌≤◌, ◌^◌};

    ghost Value = { ℕ };

    ghost view = { λ n. n.0 };

    ghost invariant = { λ n. (0 < n.0) × (n.0 ≤ 2 ^ 62) };

    ghost inverse = { λ n. record { 0 = n } };
}

impl Next {
    /// The first number of a sort.
    pub fn first() -> Next
        ensures { result ≡ 1 }
    {
        Next(1)
    }

    /// Its value.
    pub fn get(self) -> u64
        ensures value { result ≡ self }
        ensures range { (0 < self) × (self ≤ 2 ^ 62) }
    {
        self.0
    }

    /// The next number once so many were drawn.
    pub fn after(self, drawn: u64) -> Next
        requires { self + drawn ≤ 2 ^ 62 }
        ensures { result ≡ self + drawn }
    {
        Next(self.0 + drawn)
    }
}

/// The next number of each of the five sorts. Numbers are drawn in order and never used again.
#[derive(Clone, Copy, Debug, PartialEq, Eq)]
pub struct Numbers {
    pub stack: Next,
    pub trav: Next,
    pub row: Next,
    pub engine: Next,
    pub letter: Next,
}

impl Numbers {
    /// Nothing was drawn.
    pub fn first() -> Numbers
        ensures { result ≡ record { stack = 1; trav = 1; row = 1; engine = 1; letter = 1 } }
    {
        let next = Next::first();
        Numbers {
            stack: next,
            trav: next,
            row: next,
            engine: next,
            letter: next,
        }
    }
}
