//! Letters that wait for an engine, and the jobs that engines have.

use heat_plan::{EngineNo, Equals, LetterNo, RowNo, StackName, TravNo, TryCopy};
use std::alloc::AllocError;

/// A letter: somebody is to work at a node of this traversal's graph.
#[derive(Debug, Drop)]
pub struct Letter {
    pub no: LetterNo,
    pub stack: StackName,
    pub trav: TravNo,
    pub node: u32,
}

/// How far a job is.
#[derive(Clone, Copy, Debug, PartialEq, Eq)]
pub enum Stage {
    /// The row is locked, and nothing was begun.
    Taken,
    /// The row is written, and the cloud is about to be asked.
    Asking,
    /// The cloud was asked, and its answer is awaited.
    Polling,
    /// The work is done, and those that wait are about to be told.
    Ending,
}

/// A job: the engine that has it, the letter that it answers, the row that it works at, and its stage.
#[derive(Debug, Drop)]
pub struct Job {
    pub engine: EngineNo,
    pub letter: Letter,
    pub row: RowNo,
    pub stage: Stage,
}

impl TryCopy for Letter {
    fn copy(&self) -> Result<Letter, AllocError> {
        Ok(Letter {
            no: self.no,
            stack: self.stack.copy()?,
            trav: self.trav,
            node: self.node,
        })
    }
}

impl TryCopy for Job {
    fn copy(&self) -> Result<Job, AllocError> {
        Ok(Job {
            engine: self.engine,
            letter: self.letter.copy()?,
            row: self.row,
            stage: self.stage,
        })
    }
}

impl Equals for Letter {
    fn equals(&self, other: &Letter) -> bool {
        self.no == other.no
            && self.stack.equals(&other.stack)
            && self.trav == other.trav
            && self.node == other.node
    }
}

impl Equals for Job {
    fn equals(&self, other: &Job) -> bool {
        self.engine == other.engine
            && self.letter.equals(&other.letter)
            && self.row == other.row
            && self.stage == other.stage
    }
}
