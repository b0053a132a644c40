//! The names of resources that an evaluation looks up, for a caller who wants them.
ghost use Rattle.std.specs.Prelude.{◌≡◌, [], OnOk, Some, None, option_map, option_to_list};
ghost use Rattle.heat_value.specs.Meaning.{data_of};
ghost use Rattle.hot_eval.specs.Noted.{noted, own_looks};

use crate::Function;
use crate::needs::first_text;
use crate::sorts::text_in;
use heat_value::{Text, TryCopy, Value};
use std::alloc::{AllocError, Global};
use std::marker::Model;

/// The names that were looked up so far, in order, or none where nobody asks for them.
#[derive(Drop)]
pub struct Looked {
    names: Option<Vec<Text>>,
}

impl Model for Looked {
    ghost use Rattle.std.specs.Prelude.{Option, option_map};
    ghost use Rattle.eval_words.specs.Looks.{Looks};

    ghost Value = { Option Looks };

    ghost view = { λ l. option_map (λ v. v.items) l.names };
}

impl Looked {
    /// For a caller who doesn't ask.
    pub fn unasked() -> Looked
        ensures { result ≡ None }
    {
        Looked { names: None }
    }

    /// No name yet.
    pub fn asked(alloc: Global) -> Looked
        ensures { result ≡ Some [] }
    {
        Looked {
            names: Some(Vec::new(alloc)),
        }
    }

    /// Notes the name, if there is one, where somebody asks.
    #[tactic(auto, using(crate::proofs::Noting::for_looks), unfolding(crate::specs::Noted::noted))]
    pub fn note(&mut self, name: Option<&Text>) -> Result<(), AllocError>
        ensures { OnOk result (self.new ≡ noted (option_to_list (option_map (λ t. t.now) name.entry)) self.old) }
    {
        let Some(name) = name else {
            return Ok(());
        };
        if let Some(names) = &mut self.names {
            names.push(name.copy()?)?;
        }
        Ok(())
    }

    /// The names, where somebody asked.
    pub fn names(self) -> Option<Vec<Text>>
        ensures { option_map (λ v. v.items) result ≡ self }
    {
        let Looked { names } = self;
        names
    }
}

/// The name whose facts a function looks up: get_resource's argument, or the first part of get_attr's,
/// where that is a text.
pub fn name_looked_up(function: Function, given: &Value) -> Option<&Text>
    ensures { option_to_list (option_map (λ t. t.now) result) ≡ own_looks function (data_of given.now) }
{
    match function {
        Function::Resource => text_in(given),
        Function::Attribute => first_text(given),
        Function::Parameter
        | Function::File
        | Function::Join
        | Function::Split
        | Function::Replace
        | Function::ReplaceStrictly
        | Function::Repeat
        | Function::Digest
        | Function::MergeMaps
        | Function::ReplaceInMap
        | Function::Concat
        | Function::ConcatUnique
        | Function::Filter
        | Function::Contains
        | Function::If
        | Function::FlagParameter
        | Function::Equals
        | Function::Not
        | Function::And
        | Function::Or => None,
    }
}
