//! The key by which rows stand in their table.

use crate::row::Row;
use heat_plan::RowNo;
use keyed_table::Keyed;

impl Keyed for Row {
    type Key = RowNo;

    ghost use Rattle.std.specs.Prelude.{nat_eq, nat_lt};
    ghost use Rattle.keyed_table.specs.Numbers.{numbers_sorted};

    ghost key_of = { λ r. r.no };

    ghost same = { nat_eq };

    ghost below = { nat_lt };

    fn key(&self) -> &RowNo {
        &self.no
    }

    fn has_key(&self, key: &RowNo) -> bool {
        self.no == *key
    }

    fn is_below(&self, key: &RowNo) -> bool {
        self.no < *key
    }

    ghost sorts = { numbers_sorted };
}
