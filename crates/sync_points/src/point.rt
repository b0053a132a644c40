//! What the nodes of a graph were given by those before them.

use crate::SharedInput;
use heat_plan::{Equals, Facts, ResName, RowNo, Seq, StackName, TryCopy, copy_option};
use std::alloc::AllocError;

/// What the node at the place `from` gave: the name and the facts are those of an update node.
#[derive(Debug)]
pub struct Input {
    pub from: u32,
    pub name: Option<ResName>,
    pub row: RowNo,
    pub facts: Option<Facts>,
}

impl Drop for Input {
    fn drop(self) {
        let Input {
            from: _,
            name: _,
            row: _,
            facts: _,
        } = self;
    }
}

/// What one node of a stack's graph was given, and whether it is done.
#[derive(Debug)]
pub struct Point {
    pub stack: StackName,
    pub node: u32,
    pub inputs: Seq<SharedInput>,
    pub done: bool,
}

impl Drop for Point {
    fn drop(self) {
        let Point {
            stack: _,
            node: _,
            inputs: _,
            done: _,
        } = self;
    }
}

impl TryCopy for Input {
    fn copy(&self) -> Result<Input, AllocError> {
        Ok(Input {
            from: self.from,
            name: copy_option(&self.name)?,
            row: self.row,
            facts: copy_option(&self.facts)?,
        })
    }
}

impl TryCopy for Point {
    fn copy(&self) -> Result<Point, AllocError> {
        Ok(Point {
            stack: self.stack.copy()?,
            node: self.node,
            inputs: self.inputs.copy()?,
            done: self.done,
        })
    }
}

impl Equals for Input {
    fn equals(&self, other: &Input) -> bool {
        self.from == other.from
            && self.name.equals(&other.name)
            && self.row == other.row
            && self.facts.equals(&other.facts)
    }
}

impl Equals for Point {
    fn equals(&self, other: &Point) -> bool {
        self.stack.equals(&other.stack)
            && self.node == other.node
            && self.inputs.equals(&other.inputs)
            && self.done == other.done
    }
}
