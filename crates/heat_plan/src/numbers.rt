//! Numbers that are drawn in order from 1, are global, and are never used again: 1 to 2^62 - 1.
ghost use Rattle.std.specs.Prelude.{◌≡◌, ◌≢◌, ◌↔◌, ◌<◌, ◌≤◌, ◌^◌, ℕ, IsTrue, IsNone};
ghost use Rattle.std.specs.Prelude.{IfSome, SomeIff, decimal, slice_index};
ghost use Rattle.heat_plan.specs.Numbers.{IsNumber};

use heat_value::Equals;
use std::marker::Model;

/// The number at which a sort of numbers is worn out.
pub const WORN: u64 = 1 << 62;

/// A resource row's number.
#[derive(Clone, Copy, Debug, PartialEq, Eq, PartialOrd, Ord, Hash)]
pub struct RowNo(u64);

impl Model for RowNo {
    ghost use Rattle.std.specs.Prelude.{ℕ};
    ghost use Rattle.heat_plan.specs.Numbers.{IsNumber};

    ghost Value = { ℕ };

    ghost view = { λ n. n.0 };

    ghost invariant = { λ n. IsNumber n.0 };

    ghost inverse = { λ n. record { 0 = n } };
}

impl RowNo {
    /// The number of this value, where it is in range.
    pub fn new(n: u64) -> Option<RowNo>
        ensures { SomeIff result (IsNumber n) n }
    {
        if is_number(n) { Some(RowNo(n)) } else { None }
    }

    /// Its value.
    pub fn get(self) -> u64
        ensures value { result ≡ self }
        ensures range { IsNumber self }
    {
        self.0
    }
}

/// A stack's number.
#[derive(Clone, Copy, Debug, PartialEq, Eq, PartialOrd, Ord, Hash)]
pub struct StackNo(u64);

impl Model for StackNo {
    ghost use Rattle.std.specs.Prelude.{ℕ};
    ghost use Rattle.heat_plan.specs.Numbers.{IsNumber};

    ghost Value = { ℕ };

    ghost view = { λ n. n.0 };

    ghost invariant = { λ n. IsNumber n.0 };

    ghost inverse = { λ n. record { 0 = n } };
}

impl StackNo {
    /// The number of this value, where it is in range.
    pub fn new(n: u64) -> Option<StackNo>
        ensures { SomeIff result (IsNumber n) n }
    {
        if is_number(n) { Some(StackNo(n)) } else { None }
    }

    /// Its value.
    pub fn get(self) -> u64
        ensures value { result ≡ self }
        ensures range { IsNumber self }
    {
        self.0
    }
}

/// A traversal's number.
#[derive(Clone, Copy, Debug, PartialEq, Eq, PartialOrd, Ord, Hash)]
pub struct TravNo(u64);

impl Model for TravNo {
    ghost use Rattle.std.specs.Prelude.{ℕ};
    ghost use Rattle.heat_plan.specs.Numbers.{IsNumber};

    ghost Value = { ℕ };

    ghost view = { λ n. n.0 };

    ghost invariant = { λ n. IsNumber n.0 };

    ghost inverse = { λ n. record { 0 = n } };
}

impl TravNo {
    /// The number of this value, where it is in range.
    pub fn new(n: u64) -> Option<TravNo>
        ensures { SomeIff result (IsNumber n) n }
    {
        if is_number(n) { Some(TravNo(n)) } else { None }
    }

    /// Its value.
    pub fn get(self) -> u64
        ensures value { result ≡ self }
        ensures range { IsNumber self }
    {
        self.0
    }
}

/// An engine's number.
#[derive(Clone, Copy, Debug, PartialEq, Eq, PartialOrd, Ord, Hash)]
pub struct EngineNo(u64);

impl Model for EngineNo {
    ghost use Rattle.std.specs.Prelude.{ℕ};
    ghost use Rattle.heat_plan.specs.Numbers.{IsNumber};

    ghost Value = { ℕ };

    ghost view = { λ n. n.0 };

    ghost invariant = { λ n. IsNumber n.0 };

    ghost inverse = { λ n. record { 0 = n } };
}

impl EngineNo {
    /// The number of this value, where it is in range.
    pub fn new(n: u64) -> Option<EngineNo>
        ensures { SomeIff result (IsNumber n) n }
    {
        if is_number(n) {
            Some(EngineNo(n))
        } else {
            None
        }
    }

    /// Its value.
    pub fn get(self) -> u64
        ensures value { result ≡ self }
        ensures range { IsNumber self }
    {
        self.0
    }
}

/// A letter's number.
#[derive(Clone, Copy, Debug, PartialEq, Eq, PartialOrd, Ord, Hash)]
pub struct LetterNo(u64);

impl Model for LetterNo {
    ghost use Rattle.std.specs.Prelude.{ℕ};
    ghost use Rattle.heat_plan.specs.Numbers.{IsNumber};

    ghost Value = { ℕ };

    ghost view = { λ n. n.0 };

    ghost invariant = { λ n. IsNumber n.0 };

    ghost inverse = { λ n. record { 0 = n } };
}

impl LetterNo {
    /// The number of this value, where it is in range.
    pub fn new(n: u64) -> Option<LetterNo>
        ensures { SomeIff result (IsNumber n) n }
    {
        if is_number(n) {
            Some(LetterNo(n))
        } else {
            None
        }
    }

    /// Its value.
    pub fn get(self) -> u64
        ensures value { result ≡ self }
        ensures range { IsNumber self }
    {
        self.0
    }
}

impl RowNo {
    /// The number that is written so in decimal, without a leading zero.
    pub fn read(bytes: &[u8]) -> Option<RowNo>
        ensures some { IfSome result (λ n. IsNumber n × (decimal n ≡ bytes.now)) }
        ensures none { IsNone result → (n : ℕ) → IsNumber n → decimal n ≢ bytes.now }
    {
        match read_decimal(bytes) {
            Some(n) => RowNo::new(n),
            None => None,
        }
    }
}

impl Equals for RowNo {
    fn equals(&self, other: &RowNo) -> bool {
        self == other
    }
}

// Whether a value is in range.
fn is_number(n: u64) -> bool
    ensures { IsTrue result ↔ IsNumber n }
{
    0 < n && n < WORN
}

// The value that decimal digits with no leading zero stand for, where it has 64 bits.
fn read_decimal(bytes: &[u8]) -> Option<u64>
    ensures some { IfSome result (λ n. decimal n ≡ bytes.now) }
    ensures none { IsNone result → (n : ℕ) → IsNumber n → decimal n ≢ bytes.now }
{
    if bytes.is_empty() {
        return None;
    }
    if bytes[0] <= b'0' {
        return None;
    }
    match str::from_utf8(bytes) {
        Ok(text) => parsed(text),
        Err(_) => None,
    }
}

// The value of a text that begins above `0`, where it is one of 64 bits.
fn parsed(text: &str) -> Option<u64>
    requires { 48 < slice_index text.now 0 }
    ensures some { IfSome result (λ n. decimal n ≡ text.now) }
    ensures none { IsNone result → (n : ℕ) → IsNumber n → decimal n ≢ text.now }
{
    text.parse::<u64>().ok()
}
