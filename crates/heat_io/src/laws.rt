//! What holds of all that a reader gives, whatever the source.
ghost use Rattle.std.specs.Prelude.{ℕ, ◌<◌, List, length};
ghost use Rattle.heat_io.specs.Lines.{most_read};
ghost use Rattle.heat_io.specs.Reading.{Reads, AreLines, Gave};

/// Lines that were read one after another are the first lines of the script.
pub fn lines_read_are_cut_lines()
    ensures { (given : ℕ) (bytes : List ℕ) (lines : List (List ℕ)) (rest : List ℕ) (now : ℕ)
        → Reads given bytes lines rest now → AreLines given bytes lines rest now }
{}

/// Behind lines that were given one after another less than one read is held.
pub fn few_bytes_are_held_behind_lines()
    ensures { (lines : List (List ℕ)) (held : List ℕ) (given : ℕ) → Gave lines held given
        → length held < most_read }
{}
