//! Whether two things hold the same.
ghost use Rattle.std.specs.Prelude.{◌≡◌, ◌↔◌, IsTrue};

/// A type whose values can be told apart by what they hold.
pub trait Equals {
    /// Whether the other holds the same.
    fn equals(&self, other: &Self) -> bool
        ensures { IsTrue result ↔ (self.now ≡ other.now) };
}

impl Equals for u32 {
    fn equals(&self, other: &u32) -> bool {
        *self == *other
    }
}

impl<A: Equals, B: Equals> Equals for (A, B) {
    fn equals(&self, other: &(A, B)) -> bool {
        self.0.equals(&other.0) && self.1.equals(&other.1)
    }
}

impl<T: Equals> Equals for Option<T> {
    fn equals(&self, other: &Option<T>) -> bool {
        match (self, other) {
            (Some(mine), Some(its)) => mine.equals(its),
            (None, None) => true,
            _ => false,
        }
    }
}
