//! The key by which engines stand in their table.

use crate::keyed::Keyed;
use heat_plan::EngineNo;

impl Keyed for EngineNo {
    type Key = EngineNo;

    ghost use Rattle.std.specs.Prelude.{nat_eq, nat_lt};
    ghost use Rattle.keyed_table.specs.Numbers.{numbers_sorted};

    ghost key_of = { λ e. e };

    ghost same = { nat_eq };

    ghost below = { nat_lt };

    fn key(&self) -> &EngineNo {
        self
    }

    fn has_key(&self, key: &EngineNo) -> bool {
        *self == *key
    }

    fn is_below(&self, key: &EngineNo) -> bool {
        *self < *key
    }

    ghost sorts = { numbers_sorted };
}
