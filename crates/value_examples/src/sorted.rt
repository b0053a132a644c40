//! What no clause says: that records are found, put and cut where there is memory.
use keyed_table::{Ordered, SortedList};
use std::cmp::Ordering;
use std::test::Fail;

// A number and a mark.
#[derive(Clone, Copy, Debug, PartialEq, Eq, Drop)]
struct Marked {
    no: u64,
    mark: u8,
}

impl Ordered for Marked {
    type Key = u64;

    ghost use Rattle.std.specs.Ordering.{nat_cmp};
    ghost use Rattle.std.specs.Cmp.{nat_cmp_total};

    ghost key_of = { λ m. m.no };

    ghost order = { nat_cmp };

    ghost total = { nat_cmp_total };

    fn key(&self) -> &u64 {
        &self.no
    }

    fn compare(&self, key: &u64) -> Ordering {
        self.no.cmp(key)
    }
}

#[test]
fn records_stand_by_their_keys(rt: HostRuntime) -> Result<(), Fail> {
    let mut list = SortedList::new(rt.alloc());
    for (no, mark) in [(5u64, 1u8), (2, 2), (9, 3), (5, 4), (7, 5)] {
        list.reserve(1)?;
        let _ = list.put(Marked { no, mark });
    }
    let cut = list.cut(&9);
    assert!(rt; cut == Some(Marked { no: 9, mark: 3 }), "cut");
    assert!(rt; list.cut(&3).is_none(), "nothing to cut");
    let marks: [u8; 3] = [2, 4, 5];
    for (place, record) in list.as_slice().iter().enumerate() {
        assert!(rt; marks.get(place) == Some(&record.mark), "place {place}");
    }
    assert!(rt; list.get(&7) == Some(&Marked { no: 7, mark: 5 }), "found");
    assert!(rt; list.get(&6).is_none(), "not found");
    Ok(())
}
