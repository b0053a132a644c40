//! The bytes that were read and not given yet: at most a line and one read.
ghost use Rattle.std.specs.Prelude.{◌≡◌, ℕ, ◌+◌, ◌≤◌, List, [], ◌++◌, length, take};
ghost use Rattle.std.specs.Prelude.{drop, vec_len, vec_capacity, IfOk, OnOk, OnErr};
ghost use Rattle.std.specs.List.{position};
ghost use Rattle.heat_value.specs.Counts.{Rose};
ghost use Rattle.heat_io.specs.Streams.{ahead};
ghost use Rattle.heat_io.specs.Lines.{is_lf, length_of_line, line_limit, most_held};
ghost use Rattle.heat_io.specs.Reading.{HasEnd, HasNoEnd, StopsAtEnd};
ghost use Rattle.heat_io.specs.Held.{IsFilled, IsFound};

use crate::source::{Got, Source};
use heat_value::Seq;
use std::alloc::{AllocError, Global};
use std::marker::Model;

/// The most bytes of a line, its CR counted and its LF not.
pub const LINE_LIMIT: usize = 1_048_576;

// How many bytes one read asks for at most.
const PIECE: usize = 4_096;

/// What one read came to.
#[derive(Clone, Copy, Debug, PartialEq, Eq)]
pub(crate) enum Filled {
    More,
    End,
    ReadFault,
    Memory,
}

/// Where the first line ends.
#[derive(Clone, Copy, Debug, PartialEq, Eq)]
pub(crate) enum Found {
    // At an LF, behind so many bytes.
    Lf(usize),
    // Where the source ends.
    End,
    // Nowhere before the limit.
    TooLong,
    ReadFault,
    Memory,
}

/// What was read, from the first byte on that wasn't given.
#[derive(Drop)]
pub(crate) struct HeldBytes {
    all: Vec<u8>,
    from: usize,
}

impl Model for HeldBytes {
    ghost use Rattle.std.specs.Prelude.{ℕ, List, ◌≤◌, drop, vec_len};
    ghost use Rattle.heat_io.specs.Lines.{most_held};

    ghost Value = { List ℕ };

    ghost view = { λ h. drop h.from h.all.items };

    ghost invariant = { λ h. (h.from ≤ vec_len h.all) × (vec_len h.all ≤ most_held) };
}

impl HeldBytes {
    /// A reader's bytes before its first read.
    pub(crate) fn new(alloc: Global) -> HeldBytes
        ensures { result ≡ [] }
    {
        HeldBytes {
            all: Vec::new(alloc),
            from: 0,
        }
    }

    /// The bytes that wait to be given.
    pub(crate) fn as_slice(&self) -> &[u8]
        ensures held { result.now ≡ self.now }
        ensures room { length result.now ≤ most_held }
    {
        &self.all[self.from..]
    }

    /// How many there are.
    pub(crate) fn len(&self) -> usize
        ensures held { result ≡ length self.now }
        ensures room { result ≤ most_held }
    {
        self.all.len() - self.from
    }

    /// Gives the first `len` bytes, and takes the first `size` off.
    pub(crate) fn give(&mut self, len: usize, size: usize) -> Result<Seq<u8>, AllocError>
        requires len { len ≤ length self.old }
        requires size { size ≤ length self.old }
        ensures line { IfOk result (λ line. line ≡ take len self.old) }
        ensures rest { OnOk result (self.new ≡ drop size self.old) }
        ensures err { OnErr result (self.new ≡ self.old) }
    {
        let line = Vec::from_slice(*self.all.allocator(), &self.as_slice()[..len])?;
        self.from += size;
        Ok(Seq::from_vec(line))
    }

    /// Reads on until the first line's end is held, or the line is too long.
    pub(crate) fn find<S: Source>(&mut self, source: &mut S) -> Found
        requires { length self.old ≤ most_held }
        ensures room { length self.new ≤ most_held }
        ensures found { IsFound result self.new (S.left source.new) }
        ensures all { ahead self.new (S.left source.new) ≡ ahead self.old (S.left source.old) }
        ensures grows { (taken : List ℕ) × (self.new ≡ self.old ++ taken) × StopsAtEnd self.old taken }
        ensures unread { HasEnd self.old → source.new ≡ source.old }
        ensures unended { result ≡ Found.ReadFault → HasNoEnd self.new }
        ensures later { S.faults source.old ≤ S.faults source.new }
        ensures cause { result ≡ Found.ReadFault →
            Rose (S.faults source.old) (S.faults source.new) }
    {
        let mut end = self.line_end(0);
        while end.is_none() && self.len() <= LINE_LIMIT {
            let searched = self.len();
            match self.fill(source) {
                Filled::More => {}
                Filled::End => return Found::End,
                Filled::ReadFault => return Found::ReadFault,
                Filled::Memory => return Found::Memory,
            }
            end = self.line_end(searched);
        }
        match end {
            Some(count) if count <= LINE_LIMIT => Found::Lf(count),
            _ => Found::TooLong,
        }
    }

    // Where the first LF stands. None stands in front of `from`.
    fn line_end(&self, from: usize) -> Option<usize>
        requires within { from ≤ length self.now }
        requires searched { from ≤ length_of_line self.now }
        ensures { result ≡ position is_lf self.now }
    {
        match first_lf(&self.as_slice()[from..]) {
            Some(count) => Some(from + count),
            None => None,
        }
    }

    // One read. It takes its memory first, so that nothing is lost where there is none.
    fn fill<S: Source>(&mut self, source: &mut S) -> Filled
        requires { length self.old ≤ line_limit }
        ensures room { length self.new ≤ most_held }
        ensures filled { IsFilled result self.old self.new (S.left source.old) (S.left source.new) }
        ensures later { S.faults source.old ≤ S.faults source.new }
        ensures cause { result ≡ Filled.ReadFault →
            Rose (S.faults source.old) (S.faults source.new) }
    {
        drop_front(&mut self.all, self.from);
        self.from = 0;
        if self.all.reserve(PIECE).is_err() {
            return Filled::Memory;
        }
        let mut piece = [0; PIECE];
        match source.read(&mut piece) {
            Got::Bytes(count) => {
                append(&mut self.all, &piece[..count]);
                Filled::More
            }
            Got::End => Filled::End,
            Got::Failed => Filled::ReadFault,
        }
    }
}

// Where the first LF stands.
fn first_lf(bytes: &[u8]) -> Option<usize>
    ensures { result ≡ position is_lf bytes.now }
{
    bytes.iter().position(|b| *b == b'\n')
}

// Takes bytes off the front.
fn drop_front(all: &mut Vec<u8>, count: usize)
    requires { count ≤ vec_len all.old }
    ensures { all.new.items ≡ drop count all.old.items }
{
    if count > 0 {
        let left = all.len() - count;
        all.copy_within(count.., 0);
        all.truncate(left);
    }
}

// Puts bytes behind the others, within the room.
fn append(all: &mut Vec<u8>, bytes: &[u8])
    requires { vec_len all.old + length bytes.now ≤ vec_capacity all.old }
    ensures { all.new.items ≡ all.old.items ++ bytes.now }
{
    match all.extend_from_slice(bytes) {
        Ok(()) => {}
        Err(_) => unreachable!(),
    }
}
