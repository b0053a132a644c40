//! The pieces of a template, one after another.
ghost use Rattle.std.specs.Prelude.{◌≡◌, ◌≢◌, ◌≤◌, ◌++◌, [], ℕ, length};
ghost use Rattle.std.specs.Prelude.{encode_utf8};
ghost use Rattle.std.specs.Char.{IsScalar};
ghost use Rattle.std.specs.Str.{IsUtf8};
ghost use Rattle.longest_keys.specs.Texts.{IsLongest};
ghost use Rattle.hot_strings.specs.Indexes.{keys_in};
ghost use Rattle.hot_strings.specs.Places.{Begins};
ghost use Rattle.hot_strings.specs.Pieces.{Piece, source, target, IsFirstPiece};
ghost use Rattle.hot_strings.specs.Pieces.{HasNoEmptyKey};

use heat_value::Text;

/// What stands in place of a text's first piece, and the text behind that piece, where the number of the
/// longest key at its front is given, counted from 1, or 0 where there is none.
pub fn first_piece<'a>(
    params: &'a [(Text, Text)],
    longest: usize,
    text: &'a str,
) -> (&'a str, &'a str)
    requires keys { HasNoEmptyKey params.now }
    requires within { longest ≤ length params.now }
    requires longest { IsLongest (keys_in params.now) text.now longest }
    requires some { text.now ≢ [] }
    ensures piece { (p : Piece) × (text.now ≡ source p ++ result.1.now)
        × IsFirstPiece params.now text.now p × (result.0.now ≡ target p) }
    ensures utf8 { IsUtf8 result.1.now }
{
    if longest == 0 {
        return first_character(text);
    }
    let param = &params[longest - 1];
    (param.1.as_str(), behind(text, param.0.as_str()))
}

// What stands behind a key at the front of a text.
fn behind<'a>(text: &'a str, key: &str) -> &'a str
    requires { Begins key.now text.now }
    ensures value { text.now ≡ key.now ++ result.now }
    ensures utf8 { IsUtf8 result.now }
{
    let (_, tail) = text.split_at(key.len());
    tail
}

// The first character of a text, and what stands behind it.
fn first_character<'a>(text: &'a str) -> (&'a str, &'a str)
    requires { text.now ≢ [] }
    ensures character { (c : ℕ) × IsScalar c × (result.0.now ≡ encode_utf8 c)
        × (text.now ≡ encode_utf8 c ++ result.1.now) }
    ensures utf8 { IsUtf8 result.1.now }
{
    match text.chars().next() {
        Some(character) => text.split_at(character.len_utf8()),
        None => unreachable!(),
    }
}
