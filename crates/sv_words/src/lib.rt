//! What the words of a command line ask for. `docs/formats.md` lists their forms.
#![tactic(auto)]

mod command;
mod laws;

pub use command::{Command, command_of};
pub use laws::one_form;
