//! What holds of images, with no call of theirs.
ghost use Rattle.std.specs.Prelude.{◌≡◌};
ghost use Rattle.heat_disk.specs.Halves.{Pair};
ghost use Rattle.row_journal.specs.Images.{ImageData, IsImage};

/// Two halves have one image at most.
pub fn one_image()
    ensures { (halves : Pair) (i j : ImageData) → IsImage halves i → IsImage halves j → i ≡ j }
{}
