//! The top call: it reads the files that the words of a command line name, and prints what they ask for: the pages of a run, the first
//! mistake of a program, the listing of what it is compiled to, its first page, what becomes of the steps of a test, or the sums of a run of a
//! generated program. `run` carries what is promised.
#![tactic(auto)]

mod beside;
mod generate;
mod job;
mod kinds;
mod laws;
mod made;
mod program;
mod refusals;
mod status;
mod steps;
mod top;

pub use laws::one_answer;
pub use status::Status;
pub use top::run;
