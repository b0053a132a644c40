//! How deep an evaluation stands.
ghost use Rattle.std.specs.Prelude.{◌≡◌, ◌+◌, ◌≤◌, MatchOption, suc};
ghost use Rattle.eval_words.specs.Outcomes.{max_levels};

/// How many lists, objects and replaced templates may be evaluated in one another. Values nest at most 64
/// deep; only templates that `repeat` replaces again and again go further.
pub const MAX_LEVELS: u32 = 512;

/// Where an evaluation stands: in how many replaced templates, and how many levels further it may go.
#[derive(Clone, Copy, Debug)]
pub struct Depth {
    repeats: u32,
    levels: u32,
    ghost within: { repeats + levels ≤ 512 },
}

impl Depth {
    /// At the root of a value.
    pub fn root() -> Depth
        ensures repeats { result.repeats ≡ 0 }
        ensures levels { result.levels ≡ max_levels }
    {
        Depth {
            repeats: 0,
            levels: MAX_LEVELS,
        }
    }

    /// One level further, in a list or an object; none where no level is left.
    pub fn inside(self) -> Option<Depth>
        ensures { MatchOption result (self.levels ≡ 0)
            (λ d. (d.repeats ≡ self.repeats) × (self.levels ≡ suc d.levels)) }
    {
        match self.levels {
            0 => None,
            levels => Some(Depth {
                repeats: self.repeats,
                levels: levels - 1,
            }),
        }
    }

    /// At the root of a replaced template, one level further.
    pub fn repeated(self) -> Option<Depth>
        ensures { MatchOption result (self.levels ≡ 0)
            (λ d. (d.repeats ≡ self.repeats + 1) × (self.levels ≡ suc d.levels) × (d.repeats ≤ 512)) }
    {
        match self.levels {
            0 => None,
            levels => Some(Depth {
                repeats: self.repeats + 1,
                levels: levels - 1,
            }),
        }
    }
}
