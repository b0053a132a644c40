//! Finding the pieces of a text, as parts of it.
ghost use Rattle.std.specs.Prelude.{◌≡◌, ◌≢◌, ◌≤◌, [], List, ℕ, Some, IfSome, MatchOption, length, slice_get, IsUtf8};
ghost use Rattle.hot_strings.specs.Places.{Lacks, StandsFirst};
ghost use Rattle.hot_strings.specs.Split.{AreSplit};

/// What stands before and behind the delimiter, where it stands first.
pub fn cut<'a>(delimiter: &str, text: &'a str) -> Option<(&'a str, &'a str)>
    ensures parts { MatchOption result (Lacks delimiter.now text.now)
        (λ x. StandsFirst delimiter.now text.now x.0.now x.1.now) }
    ensures utf8 { IfSome result (λ x. IsUtf8 x.1.now) }
{
    text.split_once(delimiter)
}

/// The piece at a place, as a part of the text.
pub fn piece_at<'a>(delimiter: &str, text: &'a str, at: u64) -> Option<&'a str>
    requires { delimiter.now ≢ [] }
    ensures { (ps : List (List ℕ)) × AreSplit delimiter.now text.now ps
        × MatchOption result (length ps ≤ at) (λ p. slice_get ps at ≡ Some p.now) }
{
    let mut rest = text;
    let mut left = at;
    while let Some((piece, tail)) = cut(delimiter, rest) {
        if left == 0 {
            return Some(piece);
        }
        left -= 1;
        rest = tail;
    }
    if left == 0 { Some(rest) } else { None }
}
