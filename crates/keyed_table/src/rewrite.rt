//! A record that is changed where it stands.
ghost use Rattle.std.specs.Prelude.{◌≡◌};

/// What is written into a record of this type.
pub trait Rewrite<T> {
    /// The record, once it is written.
    ghost after: { Self → T → T };

    /// Writes it.
    fn write(self, item: &mut T)
        ensures { item.new ≡ after self item.old };
}
