//! The keys of a cloud file, and those of a resource in it.
ghost use Rattle.std.specs.Prelude.{◌≡◌};
ghost use Rattle.cloud_file.specs.Keys.{part_of as part_at, field_of as field_at};

/// A part of the file.
#[derive(Clone, Copy)]
pub enum Part {
    Alive,
    Broken,
    Delays,
    Faults,
    Late,
    Quotas,
}

/// A field of a resource.
#[derive(Clone, Copy)]
pub enum Field {
    Attrs,
    Id,
    Kind,
    Leaving,
    Left,
    Props,
    Ready,
    Token,
}

/// The part that a key of the file stands for.
pub fn part_of(key: &str) -> Option<Part>
    ensures { result ≡ part_at key.now }
{
    if key == "alive" {
        return Some(Part::Alive);
    }
    if key == "broken" {
        return Some(Part::Broken);
    }
    if key == "delays" {
        return Some(Part::Delays);
    }
    if key == "faults" {
        return Some(Part::Faults);
    }
    if key == "late" {
        return Some(Part::Late);
    }
    if key == "quotas" {
        return Some(Part::Quotas);
    }
    None
}

/// The field that a key of a resource stands for.
pub fn field_of(key: &str) -> Option<Field>
    ensures { result ≡ field_at key.now }
{
    if key == "attrs" {
        return Some(Field::Attrs);
    }
    if key == "id" {
        return Some(Field::Id);
    }
    if key == "kind" {
        return Some(Field::Kind);
    }
    if key == "leaving" {
        return Some(Field::Leaving);
    }
    if key == "left" {
        return Some(Field::Left);
    }
    if key == "props" {
        return Some(Field::Props);
    }
    if key == "ready" {
        return Some(Field::Ready);
    }
    if key == "token" {
        return Some(Field::Token);
    }
    None
}
