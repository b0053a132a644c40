//! Names, numbers, tokens and plans: the words that all layers above share.
//! Each type keeps what it promises of itself; nothing here knows of a state, a step or a cloud.
#![tactic(auto)]

mod by_name;
mod calls;
mod conditions;
mod facts;
mod files;
mod item;
mod kind;
mod names;
mod needs;
mod numbers;
mod order;
mod parameters;
mod phase;
mod plan;
mod properties;
mod refusal;
mod token;

pub use by_name::{ByName, HasName};
pub use calls::{Answered, Request};
pub use conditions::Condition;
pub use facts::{Facts, Known, KnownFacts};
pub use files::File;
pub use heat_value::{Equals, Seq, TryCopy, copy_option};
pub use item::{Item, Policy};
pub use kind::Kind;
pub use names::{ResName, StackName};
pub use needs::{Needs, is_rising};
pub use numbers::{EngineNo, LetterNo, RowNo, StackNo, TravNo, WORN};
pub use order::are_in_order;
pub use parameters::Parameters;
pub use phase::{Act, Status};
pub use plan::{Output, Plan};
pub use properties::{Expression, Properties};
pub use refusal::Refusal;
pub use token::Token;
