//! What a patch evaluates of a fragment by itself, and what it hands on from one fragment to the next: expressions, the values of attributes,
//! elements but for their content, and component tags with their effects on child components.
#![tactic(auto)]

mod attributes;
mod counters;
mod elements;
mod here;
mod parts;
mod refusal;
mod state;
mod tags;
mod tally;
mod values;

pub use counters::{Counters, WORK_LIMIT};
pub use elements::{Opening, open};
pub use here::Here;
pub use parts::{evaluate, fault_at, plan_literal, plan_show};
pub use refusal::{PatchError, Refusal};
pub use state::{Effect, Given, Kept, State, destroy, number, spend};
pub use tags::{passed_name, plan_tag, take_passed};
pub use tally::Tally;
pub use values::{Before, Valued};
