//! Selectors: how they are written, which elements of a page match one, and whether those are as a test expects.
#![tactic(auto)]

mod borders;
mod compound;
mod fits;
mod matching;
mod reach;
mod reader;
mod refusal;
mod selector;
mod shown;
mod texts;
mod verdict;
mod words;

pub use matching::{Match, matches};
pub use reader::parse;
pub use refusal::SelectError;
pub use selector::{Combinator, Compound, Link, Part, Selector};
pub use verdict::{Verdict, judge};
