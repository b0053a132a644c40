//! The first word of a line, by what has to stand behind it.
ghost use Rattle.std.specs.Prelude.{◌≡◌, ◌↔◌, IsTrue};
ghost use Rattle.script_lines.specs.Heads.{BeginsComment, head_of as the_head_of};

/// What the first word of a line asks for.
#[derive(Clone, Copy)]
pub enum Head {
    /// A stack's name and a body stand behind it.
    WithBody(BodyVerb),
    /// A stack's name stands behind it.
    WithStack(StackVerb),
    /// An engine's number stands behind it.
    WithEngine(EngineVerb),
    /// Nothing stands behind it.
    Alone(LoneVerb),
    /// `types`: a catalogue stands behind it.
    Types,
    /// `run`: nothing or a number stands behind it.
    Run,
    /// It is none of these.
    Unknown,
}

/// What a body is given for.
#[derive(Clone, Copy)]
pub enum BodyVerb {
    Create,
    Update,
}

/// What is asked of a stack by its name alone.
#[derive(Clone, Copy)]
pub enum StackVerb {
    Delete,
    Cancel,
    Status,
    Resources,
    Outputs,
}

/// What is asked of an engine by its number.
#[derive(Clone, Copy)]
pub enum EngineVerb {
    Turn,
    Stop,
}

/// What is asked for by a word alone.
#[derive(Clone, Copy)]
pub enum LoneVerb {
    Start,
    Restart,
}

/// Whether this is the first word of a comment.
pub fn begins_comment(word: &[u8]) -> bool
    ensures { IsTrue result ↔ BeginsComment word.now }
{
    matches!(word, [b'#', ..])
}

/// What a first word that begins no comment asks for.
pub fn head_of(word: &[u8]) -> Head
    ensures { result ≡ the_head_of word.now }
{
    if word == b"create".as_slice() {
        return Head::WithBody(BodyVerb::Create);
    }
    if word == b"update".as_slice() {
        return Head::WithBody(BodyVerb::Update);
    }
    if word == b"delete".as_slice() {
        return Head::WithStack(StackVerb::Delete);
    }
    if word == b"cancel".as_slice() {
        return Head::WithStack(StackVerb::Cancel);
    }
    if word == b"status".as_slice() {
        return Head::WithStack(StackVerb::Status);
    }
    if word == b"resources".as_slice() {
        return Head::WithStack(StackVerb::Resources);
    }
    if word == b"outputs".as_slice() {
        return Head::WithStack(StackVerb::Outputs);
    }
    if word == b"types".as_slice() {
        return Head::Types;
    }
    if word == b"run".as_slice() {
        return Head::Run;
    }
    if word == b"turn".as_slice() {
        return Head::WithEngine(EngineVerb::Turn);
    }
    if word == b"stop".as_slice() {
        return Head::WithEngine(EngineVerb::Stop);
    }
    if word == b"start".as_slice() {
        return Head::Alone(LoneVerb::Start);
    }
    if word == b"restart".as_slice() {
        return Head::Alone(LoneVerb::Restart);
    }
    Head::Unknown
}
