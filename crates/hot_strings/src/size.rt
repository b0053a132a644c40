//! How much room a text takes as compact JSON.
ghost use Rattle.std.specs.Prelude.{◌≡◌, ◌+◌, ◌<◌, MatchOption, length};
ghost use Rattle.json.specs.Print.{escape_byte, escape};

/// How many bytes of compact JSON the result of a function has at most.
pub const MAX_SIZE: usize = 1_048_576;

/// What is left of the room once the text stands in it, without quotes; None where it is too small.
pub fn room_after(room: usize, text: &str) -> Option<usize>
    ensures { MatchOption result (room < length (escape text.now))
        (λ left. left + length (escape text.now) ≡ room) }
{
    let mut left = room;
    for byte in text.as_bytes() {
        let taken = escaped_len(*byte);
        if left < taken {
            return None;
        }
        left -= taken;
    }
    Some(left)
}

/// How many bytes stand for a byte in a JSON string.
#[tactic(auto, unfolding(json::specs::Print::escape_byte))]
pub fn escaped_len(byte: u8) -> usize
    ensures { result ≡ length (escape_byte byte) }
{
    match byte {
        b'"' | b'\\' | 8 | 9 | 10 | 12 | 13 => 2,
        _ => if byte < 32 { 6 } else { 1 },
    }
}
