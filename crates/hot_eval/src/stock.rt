//! The texts of a list's items, made once for all choices.
ghost use Rattle.std.specs.Prelude.{◌≡◌, ◌<◌, [], IfOk, get_or, length, set};
ghost use Rattle.heat_value.specs.Meaning.{nodes_of};
ghost use Rattle.hot_eval.specs.Repeats.{item_texts};

use heat_value::{Text, Value, text_of};
use std::alloc::{AllocError, Global};
use std::marker::Model;
use std::mem;

/// The texts of a list's items, in their places. One of them is lent to the choice, where it is read.
#[derive(Drop)]
pub struct Stock {
    all: Vec<Text>,
}

impl Model for Stock {
    ghost use Rattle.std.specs.Prelude.{ℕ, List};

    ghost Value = { List (List ℕ) };

    ghost view = { λ s. s.all.items };
}

impl Stock {
    /// The texts of these items.
    pub fn of(alloc: Global, items: &[Value]) -> Result<Stock, AllocError>
        ensures { IfOk result (λ s. s ≡ item_texts (nodes_of items.now)) }
    {
        let mut all = Vec::new(alloc);
        for item in items {
            all.push(text_of(alloc, item)?)?;
        }
        Ok(Stock { all })
    }

    /// Takes a text back at its place, and lends the one at another.
    pub fn lend(&mut self, text: &mut Text, from: usize, to: usize)
        requires from { from < length self.old }
        requires to { to < length self.old }
        ensures text { text.new ≡ get_or (set self.old from text.old) to [] }
        ensures rest { set self.new to text.new ≡ set self.old from text.old }
    {
        mem::swap(&mut self.all[from], text);
        mem::swap(&mut self.all[to], text);
    }
}
