//! A path from the root of what was read: keys of maps and places in lists.
ghost use Rattle.std.specs.Prelude.{◌≡◌, ◌∷◌, ◌++◌, [], OnOk, OnErr, IfOk, string_bytes, false};

use crate::value::printing::write_words;
use crate::{Equals, Seq, Text, TryCopy};
use serde_json::Value as Json;
use std::alloc::{AllocError, Global};
use std::marker::Model;

/// A step of a path: a map's key, or a place in a list, from 0.
#[derive(Debug, PartialEq, Eq, Drop)]
pub enum Step {
    Key(Text),
    Index(usize),
}

/// A path, seen as its steps from the root on.
#[derive(Debug, Drop)]
pub struct Path {
    steps: Seq<Step>,
}

impl Model for Path {
    ghost use Rattle.std.specs.Prelude.{List};
    ghost use Rattle.heat_value.specs.declared.path.Step.{Step};

    ghost Value = { List Step };

    ghost view = { λ p. p.steps };
}

impl Path {
    ghost use Rattle.heat_value.specs.Path.{path_text};

    /// The root itself.
    pub fn root(alloc: Global) -> Path
        ensures { result ≡ [] }
    {
        Path {
            steps: Seq::new(alloc),
        }
    }

    /// The steps, from the root on.
    pub fn as_slice(&self) -> &[Step]
        ensures { result.now ≡ self.now }
    {
        self.steps.as_slice()
    }

    /// Goes one step further.
    pub fn push(&mut self, step: Step) -> Result<(), AllocError>
        ensures ok { OnOk result (self.new ≡ self.old ++ step ∷ []) }
        ensures err { OnErr result (self.new ≡ self.old) }
    {
        self.steps.push(step)
    }

    /// The path of the same place, seen from one step above the root.
    pub fn under(mut self, step: Step) -> Result<Path, AllocError>
        ensures { IfOk result (λ p. p ≡ step ∷ self) }
    {
        self.steps.insert(0, step)?;
        Ok(self)
    }

    /// The path as compact JSON: `["resources","a",0]`.
    pub fn text(&self, alloc: Global) -> Result<Text, AllocError>
        ensures { IfOk result (λ t. t ≡ path_text self.now) }
    {
        let mut out = String::new(alloc);
        out.push_str("[")?;
        let mut later = false;
        for step in self.steps.as_slice() {
            if later {
                out.push_str(",")?;
            }
            step.write(alloc, &mut out)?;
            later = true;
        }
        out.push_str("]")?;
        Ok(Text::from_string(out))
    }
}

impl Step {
    ghost use Rattle.heat_value.specs.Path.{step_text};

    // Adds the step as JSON.
    fn write(&self, alloc: Global, out: &mut String) -> Result<(), AllocError>
        ensures { OnOk result (string_bytes out.new ≡ string_bytes out.old ++ step_text self.now) }
    {
        match self {
            Step::Key(key) => write_words(alloc, out, key.as_str()),
            Step::Index(index) => {
                let text = Json::from(*index).to_string(alloc)?;
                out.push_str(text.as_str())
            }
        }
    }
}

impl TryCopy for Path {
    fn copy(&self) -> Result<Path, AllocError> {
        Ok(Path {
            steps: self.steps.copy()?,
        })
    }
}

impl TryCopy for Step {
    fn copy(&self) -> Result<Step, AllocError> {
        match self {
            Step::Key(key) => Ok(Step::Key(key.copy()?)),
            Step::Index(index) => Ok(Step::Index(*index)),
        }
    }
}

impl Equals for Path {
    fn equals(&self, other: &Path) -> bool {
        self.steps.equals(&other.steps)
    }
}

impl Equals for Step {
    fn equals(&self, other: &Step) -> bool {
        match (self, other) {
            (Step::Key(mine), Step::Key(its)) => *mine == *its,
            (Step::Index(mine), Step::Index(its)) => *mine == *its,
            _ => false,
        }
    }
}
