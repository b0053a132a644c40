//! A cloud in memory, whose settings say how each call goes. It meets the provider's trait, gives each
//! resource its id and its attributes by a rule, and keeps its trace. It asks nothing of anyone.
#![tactic(auto)]

mod cloud;
mod conduct;
mod course;
mod creates;
mod deletes;
mod held;
mod holdings;
mod inventory;
mod questions;
mod rule;
mod settings;
mod sim_cloud;
mod updates;

pub use conduct::Conduct;
pub use course::Course;
pub use held::Held;
pub use holdings::Holdings;
pub use inventory::Inventory;
pub use settings::{KindDelay, KindQuota, NameCode, Settings};
pub use sim_cloud::SimCloud;
