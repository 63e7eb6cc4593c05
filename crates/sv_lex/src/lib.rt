//! Cuts the text of a script into tokens, and offers a cursor over them to the parsers.
#![tactic(auto)]

mod characters;
mod comments;
mod contents;
mod cursor;
mod digits;
mod front;
mod laws;
mod lexeme;
mod look;
mod naming;
mod pieces;
mod signs;
mod source;
mod strings;
mod token;
mod words;

pub use cursor::{NUMERAL_LIMIT, Run, Tokens};
pub use front::byte;
pub use laws::{pieces_are_read_on, signs_are_the_longest};
pub use lexeme::Lexeme;
pub use look::{first, past, same_lexeme};
pub use naming::{is_name, name_text};
pub use source::Source;
pub use token::name_len;
