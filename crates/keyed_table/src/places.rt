//! The places of a list's records, sorted by what an index goes by.
ghost use Rattle.std.specs.Prelude.{ℕ, ◌≡◌, ◌<◌, ◌≤◌, length, map, slice_index};
ghost use Rattle.keyed_table.specs.Orders.{closed};

use crate::roomed::Roomed;

/// Counts the places behind one that is gone down; none is past the records that are left, so that where
/// the last one is gone there is nothing to count.
pub fn close_up(places: &mut Roomed<usize>, gone: usize, left: usize)
    requires { (i : ℕ) → i < length places.old.items → slice_index places.old.items i ≤ left }
    ensures places { places.new.items ≡ map (closed gone) places.old.items }
    ensures room { places.new.spare ≡ places.old.spare }
{
    if gone < left {
        count_down(places, gone);
    }
}

// Counts each place behind one that is gone down.
fn count_down(places: &mut Roomed<usize>, gone: usize)
    ensures places { places.new.items ≡ map (closed gone) places.old.items }
    ensures room { places.new.spare ≡ places.old.spare }
{
    for i in 0..places.as_slice().len() {
        let place = places.as_slice()[i];
        if gone < place {
            places.set(i, place - 1);
        }
    }
}
