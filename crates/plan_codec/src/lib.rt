//! The bytes of plans and of all that they are made of: one spelling for each thing, which is put on a
//! sheet without memory, and readers that take exactly what is spelled so. It answers to `specs/Spellings.antt` and the files behind it.
#![tactic(auto)]

mod coding;
mod drawn;
mod facts;
mod fields;
mod items;
mod kinds;
mod lists;
mod named;
mod needs;
mod numbers;
mod options;
mod pairs;
mod plans;
mod properties;
mod sheet;
mod texts;
mod unread;
mod value_puts;
mod values;

pub use coding::{Readable, Writable};
pub use heat_plan::{
    Act, EngineNo, Facts, Kind, LetterNo, Plan, Policy, Properties, ResName, RowNo, StackName,
    StackNo, Status, Token, TravNo, WORN,
};
pub use heat_value::Seq;
pub use lists::{items_at, put_items};
pub use numbers::put_number;
pub use sheet::Sheet;
pub use unread::Unread;
