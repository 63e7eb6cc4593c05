//! Rows on the parsers: the text of a token, an expression, a script, a module, a tag or a component, and the tree that it is read as, or its
//! refusal. `sv_rows` says how rows are written. A tree is told by the forms of its nodes, each in front of those of its parts, and a place
//! by the bytes at which it begins and ends.
#![tactic(auto)]

ghost use Rattle.std.specs.Prelude.{◌<◌, length};

mod cursors;
mod expressions;
mod markup;
mod openings;
mod parts;
mod pieces;
mod refusals;
mod statements;
mod tokens;

use std::alloc::Global;
use std::{io, str};
use sv_base::NoMemory;
use sv_rows::answer_rows;
use sv_tags::{Quote, Setting};

/// No text of a row has so many bytes.
const LONGEST: usize = 10_000_000;

// What a row is answered.
fn answer(alloc: Global, kind: &str, text: &[u8]) -> Result<String, NoMemory> {
    if text.len() >= LONGEST {
        return Ok(String::from_str(alloc, "too long")?);
    }
    match kind {
        "blanks" => tokens::blanks(alloc, text),
        "token" => tokens::token(alloc, text),
        "whole name" => tokens::whole_name(alloc, text),
        "name in front" => tokens::name_in_front(alloc, text),
        "expression" => expressions::expression(alloc, text),
        "refusal of expression" => expressions::refusal(alloc, text),
        "script" => statements::script(alloc, text),
        "module script" => statements::module(alloc, text),
        "refusal of script" => statements::refusal(alloc, text),
        "last statement" => statements::last_place(alloc, text),
        "text in body" => pieces::text_in(alloc, Setting::Body, text),
        "text in double quotes" => pieces::text_in(alloc, Setting::Quoted(Quote::Double), text),
        "text in single quotes" => pieces::text_in(alloc, Setting::Quoted(Quote::Single), text),
        "text without quotes" => pieces::text_in(alloc, Setting::Unquoted, text),
        "comment" => pieces::comment_in(alloc, text),
        "script tag" => pieces::script_in(alloc, text),
        "style" => pieces::style_in(alloc, text),
        "tag end" => pieces::tag_end_in(alloc, text),
        "tag named" => pieces::tag_named(alloc, text),
        "component" => markup::component(alloc, text),
        "refusal of component" => markup::refusal(alloc, text),
        "count of nodes" => markup::count(alloc, text),
        "nodes" => markup::tops(alloc, text),
        "fronts that are components" => markup::fronts(alloc, text),
        "module" => markup::module(alloc, text),
        "tags" => parts::tags(alloc, text),
        "count of statements" => parts::statement_count(alloc, text),
        "first statement" => parts::first_statement(alloc, text),
        _ => answer_in_words(alloc, kind, text),
    }
}

// What a row is answered whose text has parts.
fn answer_in_words(alloc: Global, kind: &str, text: &[u8]) -> Result<String, NoMemory>
    requires { length text.now < LONGEST }
{
    let Ok(row) = str::from_utf8(text) else {
        return Ok(String::from_str(alloc, "no text")?);
    };
    match kind {
        "cursor" => cursors::cursor(alloc, row),
        "source" => cursors::source(alloc, row),
        "end behind" => expressions::end_behind(alloc, row),
        "end in constructs" => expressions::end_in(alloc, row),
        "scripts with shared names" => statements::sharing_names(alloc, row),
        "opening" => openings::opening(alloc, row),
        "braces with room" => pieces::braces_with_room(alloc, row),
        "nodes inside" => parts::nodes_inside(alloc, row),
        "node" => parts::node(alloc, row),
        "components with shared names" => markup::sharing_names(alloc, row),
        _ => Ok(String::from_str(alloc, "no such kind")?),
    }
}

fn main(rt: HostRuntime) -> io::Result<()> {
    let alloc = rt.alloc();
    answer_rows(&rt, |kind, text| answer(alloc, kind, text))
}
