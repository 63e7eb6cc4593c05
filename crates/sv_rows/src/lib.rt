//! Tables of rows: reads the rows of a table from standard input, and prints each with its answer. A program that shows cases gives
//! `answer_rows` what answers a row.
//!
//! - A row is a line `KIND: TEXT`. It is printed with ` -> ` and its answer behind it. A line that begins with `#` is a heading, and an
//!   empty line parts sections: both are printed as they are.
//! - In TEXT `\n`, `\r` and `\t` stand for a line break, a return and a tab, `\s` for a space, `\x0B` for the byte of that number, and `\`
//!   before another sign for that sign. In an answer the same is written for line breaks, returns, tabs and backslashes.
//! - `\[3 times TEXT\]` stands for that text three times over, in which `\#` is 1, 2 and 3 in turn, and `\+`
//!   the number after it.
#![tactic(auto)]

mod answers;
mod notation;
mod table;

pub use answers::{push_gap, push_part, yes_or_no};
pub use table::answer_rows;
