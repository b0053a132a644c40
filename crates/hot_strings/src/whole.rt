//! How long a whole number is in decimal.
ghost use Rattle.std.specs.Prelude.{◌≡◌, length, decimal};
ghost use Rattle.heat_value.specs.Compact.{compact};
ghost use Rattle.heat_value.specs.Data.{whole};

/// How many bytes a whole number takes.
pub fn whole_len(number: i64) -> usize
    ensures { result ≡ length (compact (whole number)) }
{
    let count = digit_count(number.unsigned_abs());
    if number < 0 { count + 1 } else { count }
}

// How many decimal digits a number has.
fn digit_count(number: u64) -> usize
    ensures { result ≡ length (decimal number) }
{
    let mut left = number;
    let mut count = 1;
    while left >= 10 {
        left /= 10;
        count += 1;
    }
    count
}
