//! The engine that a row goes to, and the row's next key.

use crate::Row;
use heat_plan::EngineNo;
use keyed_table::Rewrite;

/// Who gets the row, and what its key becomes.
#[derive(Clone, Copy, Debug)]
pub(crate) struct Hold {
    pub(crate) engine: Option<EngineNo>,
    pub(crate) key: u64,
}

impl Rewrite<Row> for Hold {
    ghost after = { λ h r. record r { engine = h.engine; key = h.key } };

    fn write(self, row: &mut Row) {
        row.engine = self.engine;
        row.key = self.key;
    }
}
