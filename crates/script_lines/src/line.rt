//! A line of the script, read: what it asks for, or what is wrong with it.
ghost use Rattle.std.specs.Prelude.{◌≢◌, IfOk, IfErr, Ok, Err};
ghost use Rattle.script_lines.specs.Readings.{Reads, IsReadOneWay};

use crate::forms::words_read;
use crate::words::first_word;
use crate::{Body, Misread};
use heat_plan::{EngineNo, StackName};
use heat_value::Value;
use std::alloc::Global;

/// What a line asks for.
#[derive(Debug, Drop)]
pub enum Line {
    /// Nothing: a line without words, or a comment.
    Blank,
    /// A stack of this name is to be made, by this body.
    Create(StackName, Body),
    /// The stack is to become what this body asks for.
    Update(StackName, Body),
    /// The stack is to go, with what it has in the cloud.
    Delete(StackName),
    /// The stack's traversal is to be rolled back.
    Cancel(StackName),
    /// The stack's status is to be shown.
    Status(StackName),
    /// The stack's rows are to be listed.
    Resources(StackName),
    /// The stack's outputs are to be listed.
    Outputs(StackName),
    /// Kinds are to be given, by this catalogue.
    Types(Value),
    /// At most so many turns are to be made, or as many as there is work for.
    Run(Option<u64>),
    /// This engine is to take a turn.
    Turn(EngineNo),
    /// This engine is to stop.
    Stop(EngineNo),
    /// One more engine is to be live.
    Start,
    /// All engines are to stop, and others to be live.
    Restart,
}

impl Line {
    /// What the line is read as: one thing, or the first fault of it.
    pub fn read(alloc: Global, line: &[u8]) -> Result<Line, Misread>
        ensures ok { IfOk result (λ l. Reads line.now (Ok l)) }
        ensures fault { IfErr result (λ e. e ≢ Misread.Memory → Reads line.now (Err e)) }
        ensures one { IsReadOneWay line.now }
    {
        match str::from_utf8(line) {
            Ok(_text) => match first_word(line) {
                Some((word, rest)) => words_read(alloc, word, rest),
                None => Ok(Line::Blank),
            },
            Err(_) => Err(Misread::L01),
        }
    }
}
