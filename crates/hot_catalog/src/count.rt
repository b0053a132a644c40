//! How many kinds would stand once a line is taken.
ghost use Rattle.std.specs.Prelude.{◌≡◌, ◌+◌, length, nat_le};
ghost use Rattle.heat_value.specs.Data.{keys_of, Rises};
ghost use Rattle.hot_catalog.specs.Counts.{others as the_others};

use heat_value::Props;
use type_catalog::KindDef;

// How many kinds stand in a catalogue at most.
const MOST_KINDS: u128 = 256;

/// Whether the registry's kinds, those of a line, and the given ones that it doesn't replace are at most 256.
pub fn are_few(registered: usize, given: &[KindDef], line: &Props) -> bool
    ensures rising { Rises line.now }
    ensures exact { result ≡ nat_le
        (registered + (length (keys_of line.now) + the_others line.now given.now)) 256 }
{
    let of_line = line.as_slice().len() as u128 + others(line, given) as u128;
    registered as u128 + of_line <= MOST_KINDS
}

// How many of the given kinds a line doesn't name. Each is looked up in the line.
fn others(line: &Props, given: &[KindDef]) -> usize
    ensures { result ≡ the_others line.now given.now }
{
    let mut count = 0;
    for kind in given {
        if line.get(&kind.name).is_none() {
            count += 1;
        }
    }
    count
}
