//! A script read line by line, with at most one line and one read held at a time.
ghost use Rattle.std.specs.Prelude.{◌≡◌, ◌≢◌, ◌<◌, ◌≤◌, ℕ, List, [], ◌++◌, IsTrue, true, length, take};
ghost use Rattle.std.specs.Io.BufRead.{strip_last};
ghost use Rattle.heat_value.specs.Counts.{Rose};
ghost use Rattle.heat_io.specs.Streams.{ahead};
ghost use Rattle.heat_io.specs.Lines.{length_of_line, line_limit, script_limit, most_held};
ghost use Rattle.heat_io.specs.Reading.{HasEnd, HasNoEnd, HoldsFew, IsNext, IsNextOf, IsGiven, StopsAtEnd};
ghost use Rattle.heat_io.specs.Reading.{is_line};

pub use crate::held::LINE_LIMIT;
use crate::held::{Found, HeldBytes};
use crate::next::Next;
use crate::source::Source;
use std::alloc::Global;
use std::marker::Model;

/// The most bytes of a script, with all ends of lines.
pub const SCRIPT_LIMIT: u64 = 268_435_456;

/// Cuts what a source gives into lines.
#[derive(Drop)]
pub struct LineReader {
    held: HeldBytes,
    given: u64,
    goes_on: bool,
}

impl Model for LineReader {
    ghost use Rattle.std.specs.Prelude.{◌≤◌, length};
    ghost use Rattle.heat_io.specs.Lines.{script_limit, most_held};
    ghost use Rattle.heat_io.specs.Reading.{Reader};

    ghost Value = { Reader };

    ghost view = { λ r. record { held = r.held; given = r.given; goes_on = r.goes_on } };

    ghost invariant = { λ r. (r.given ≤ script_limit) × (length r.held ≤ most_held) };
}

impl LineReader {
    /// A reader that holds nothing yet.
    pub fn new(alloc: Global) -> LineReader
        ensures { result ≡ record { held = []; given = 0; goes_on = true } }
    {
        LineReader {
            held: HeldBytes::new(alloc),
            given: 0,
            goes_on: true,
        }
    }

    /// The next line of the script. Every earlier answer was a line.
    pub fn next<S: Source>(&mut self, source: &mut S) -> Next
        requires { IsTrue self.old.goes_on }

        // What is ahead is what the reader holds and then what the source has left.
        ensures told { IsNextOf self.old.given (ahead self.old.held (S.left source.old)) result
            (ahead self.new.held (S.left source.new)) self.new.given }

        // The same over the bytes that were held and taken, whatever the source tells. They are taken only
        // up to a line's end.
        ensures seen { (taken : List ℕ) × IsNext self.old.given (self.old.held ++ taken) result
            self.new.held self.new.given × StopsAtEnd self.old.held taken }
        ensures room { length self.new.held ≤ most_held }

        // Nothing is read where a line's end is held; behind a line less than one read is held, or a rest
        // of what was; and no line that was wholly read is held where a read fails.
        ensures unread { HasEnd self.old.held → source.new ≡ source.old }
        ensures behind { (line : List ℕ) → result ≡ Next.Line line
            → HoldsFew self.old.held self.new.held }
        ensures unended { result ≡ Next.ReadFault → HasNoEnd self.new.held }

        ensures goes_on { self.new.goes_on ≡ is_line result }
        ensures later { S.faults source.old ≤ S.faults source.new }
        ensures cause { result ≡ Next.ReadFault →
            Rose (S.faults source.old) (S.faults source.new) }
    {
        let next = self.line(source);
        self.goes_on = matches!(next, Next::Line(_));
        next
    }

    // Reads on to the line's end, and gives the line.
    fn line<S: Source>(&mut self, source: &mut S) -> Next
        ensures told { IsNextOf self.old.given (ahead self.old.held (S.left source.old)) result
            (ahead self.new.held (S.left source.new)) self.new.given }
        ensures seen { (taken : List ℕ) × IsNext self.old.given (self.old.held ++ taken) result
            self.new.held self.new.given × StopsAtEnd self.old.held taken }
        ensures unread { HasEnd self.old.held → source.new ≡ source.old }
        ensures unended { result ≡ Next.ReadFault → HasNoEnd self.new.held }
        ensures later { S.faults source.old ≤ S.faults source.new }
        ensures cause { result ≡ Next.ReadFault →
            Rose (S.faults source.old) (S.faults source.new) }
    {
        match self.held.find(source) {
            Found::Lf(count) => self.at_lf(count),
            Found::End => self.at_end(),
            Found::TooLong => Next::LineTooLong,
            Found::ReadFault => Next::ReadFault,
            Found::Memory => Next::Memory,
        }
    }

    // The line ends at an LF behind so many bytes.
    fn at_lf(&mut self, count: usize) -> Next
        requires first { count ≡ length_of_line self.old.held }
        requires lf { count < length self.old.held }
        requires short { count ≤ line_limit }
        ensures next { IsNext self.old.given self.old.held result self.new.held self.new.given }
        ensures no_read { result ≢ Next.ReadFault }
    {
        let len = len_before_cr(&self.held.as_slice()[..count]);
        self.give(len, count + 1)
    }

    // The line ends where the source does.
    fn at_end(&mut self) -> Next
        requires end { length_of_line self.old.held ≡ length self.old.held }
        requires short { length self.old.held ≤ line_limit }
        ensures next { IsNext self.old.given self.old.held result self.new.held self.new.given }
        ensures no_read { result ≢ Next.ReadFault }
    {
        let count = self.held.len();
        if count == 0 {
            return Next::End;
        }
        self.give(count, count)
    }

    // Gives a line of `len` bytes, which takes `size` bytes of the script.
    fn give(&mut self, len: usize, size: usize) -> Next
        requires len { len ≤ length self.old.held }
        requires size { size ≤ length self.old.held }
        ensures { IsGiven len size self.old self.new result }
    {
        if SCRIPT_LIMIT - self.given < size as u64 {
            return Next::ScriptTooLong;
        }
        match self.held.give(len, size) {
            Ok(line) => {
                self.given += size as u64;
                Next::Line(line)
            }
            Err(_) => Next::Memory,
        }
    }
}

// How long a line is without a CR at its end.
fn len_before_cr(line: &[u8]) -> usize
    ensures within { result ≤ length line.now }
    ensures front { take result line.now ≡ strip_last 13 line.now }
{
    match line {
        [front @ .., b'\r'] => front.len(),
        _ => line.len(),
    }
}
