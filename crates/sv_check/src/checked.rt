// What is told of a program without mistakes.
use sv_ast::Bundle;
use sv_list::Items;
use sv_resolve::Scopes;

/// What is told of a file: of a component its cells and constants, and the places of its reactive statements, from 0 in the order of the
/// text, in the order in which they run. A module has neither.
#[derive(Drop)]
pub struct CheckedComponent {
    pub scopes: Scopes,
    pub order: Vec<u32>,
}

/// A program without mistakes, with what is told of each of its files, at the file's place.
#[derive(Drop)]
pub struct Checked<'a> {
    pub bundle: &'a Bundle,
    pub components: Items<CheckedComponent>,
}
