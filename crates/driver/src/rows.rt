//! What the rows stand for.
ghost use Rattle.std.specs.Prelude.{◌<◌, ◌^◌};
ghost use Rattle.driver.specs.Keyed.{AreKeyed};
ghost use Rattle.driver.specs.Parts.{RowsWork};

use crate::rolls::roll_one;
use core_state::State;

/// 69 for each row of a stack that may be rolled back.
pub(crate) fn rows_work(s: &State) -> u128
    requires { AreKeyed s.now.state }
    ensures exact { RowsWork s.now.state result }
    ensures bound { result < 2 ^ 80 }
{
    let mut sum = 0;
    for row in s.rows() {
        sum += 69 * roll_one(s, &row.stack);
    }
    sum
}
