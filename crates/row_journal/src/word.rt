//! Numbers as 8 bytes, the highest first.
ghost use Rattle.std.specs.Prelude.{◌≡◌, ◌≢◌, ◌<◌, ◌++◌, List, ℕ, IfSome, None, length};
ghost use Rattle.row_journal.specs.Forms.{word, number};

/// The number that 8 bytes spell.
pub(crate) fn number(bytes: &[u8]) -> u64
    requires { length bytes.now ≡ 8 }
    ensures { result ≡ number bytes.now }
{
    u64::from_be_bytes([
        bytes[0], bytes[1], bytes[2], bytes[3], bytes[4], bytes[5], bytes[6], bytes[7],
    ])
}

/// The number in front, and what stands behind it; none where there are fewer than 8 bytes.
pub(crate) fn first_number(bytes: &[u8]) -> Option<(u64, &[u8])>
    ensures some { IfSome result (λ r. bytes.now ≡ word r.0 ++ r.1.now) }
    ensures none { result ≡ None → length bytes.now < 8 }
{
    if bytes.len() < 8 {
        return None;
    }
    let (front, rest) = bytes.split_at(8);
    Some((number(front), rest))
}

/// What stands behind this number; none where another stands there, or none.
pub(crate) fn behind_number(bytes: &[u8], wanted: u64) -> Option<&[u8]>
    ensures some { IfSome result (λ rest. bytes.now ≡ word wanted ++ rest.now) }
    ensures none { result ≡ None → (rest : List ℕ) → bytes.now ≢ word wanted ++ rest }
{
    match first_number(bytes) {
        Some((found, rest)) if found == wanted => Some(rest),
        _ => None,
    }
}
