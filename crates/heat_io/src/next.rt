//! What the next line of a script comes to.
use heat_value::Seq;

/// The answer to one call of `LineReader::next`.
#[derive(Debug, Drop)]
pub enum Next {
    /// The line, without its LF and the CR before that.
    Line(Seq<u8>),
    /// There is no further line.
    End,
    /// The line, its CR counted and its LF not, passes `LINE_LIMIT` bytes.
    LineTooLong,
    /// The script up to the line's end, LFs counted, passes `SCRIPT_LIMIT` bytes.
    ScriptTooLong,
    /// A read failed.
    ReadFault,
    /// There was no memory.
    Memory,
}
