// What markup sees of its component, and what is numbered in it.
ghost use Rattle.std.specs.Prelude.{◌≤◌, length};

use std::alloc::Global;
use sv_ast::Ref;
use sv_code::{Functions, Handlers, Tags};
use sv_lower::TopNames;
use sv_names::NameMap;

/// A component, as its markup sees it: what names stand for at the top of its file; its cells, at most 256; and the files that the names of
/// its tags stand for. What is made takes its memory from `alloc`.
#[derive(Clone, Copy)]
pub struct Around<'a> {
    pub alloc: Global,
    pub tops: &'a TopNames<'a>,
    pub cells: &'a [Ref],
    pub children: &'a NameMap,
    pub ghost few: { length cells.now ≤ 256 },
}

/// The functions, component tags and handlers of a program, by number.
#[derive(Drop)]
pub struct Tables {
    pub functions: Functions,
    pub tags: Tags,
    pub handlers: Handlers,
}
