//! The keys by which letters and jobs stand in their tables.

use crate::mail::{Job, Letter};
use heat_plan::{EngineNo, LetterNo};
use keyed_table::Keyed;

impl Keyed for Letter {
    type Key = LetterNo;

    ghost use Rattle.std.specs.Prelude.{nat_eq, nat_lt};
    ghost use Rattle.keyed_table.specs.Numbers.{numbers_sorted};

    ghost key_of = { λ l. l.no };

    ghost same = { nat_eq };

    ghost below = { nat_lt };

    fn key(&self) -> &LetterNo {
        &self.no
    }

    fn has_key(&self, key: &LetterNo) -> bool {
        self.no == *key
    }

    fn is_below(&self, key: &LetterNo) -> bool {
        self.no < *key
    }

    ghost sorts = { numbers_sorted };
}

impl Keyed for Job {
    type Key = EngineNo;

    ghost use Rattle.std.specs.Prelude.{nat_eq, nat_lt};
    ghost use Rattle.keyed_table.specs.Numbers.{numbers_sorted};

    ghost key_of = { λ j. j.engine };

    ghost same = { nat_eq };

    ghost below = { nat_lt };

    fn key(&self) -> &EngineNo {
        &self.engine
    }

    fn has_key(&self, key: &EngineNo) -> bool {
        self.engine == *key
    }

    fn is_below(&self, key: &EngineNo) -> bool {
        self.engine < *key
    }

    ghost sorts = { numbers_sorted };
}
