// Whole programs.
use crate::fragments::Frags;
use crate::functions::{CodeStmts, Functions};
use crate::known::Known;
use crate::parts::CellList;
use crate::tags::{Handlers, Tags};
use sv_ast::{LineStarts, RefList};
use sv_base::{Name, Names, Span, Text};

/// The files of a program, in order of reading.
pub type ProgramFiles = sv_list::Items<ProgramFile>;

/// Reactive statements, in the order in which they run.
pub type Runs = sv_list::Items<Run>;

/// A reactive statement: its number among those of its component, from 0 in the order of the text; its place in the file; which statement
/// of the script it is, from 0; and the cells that it reads and assigns, with ascending numbers.
#[derive(Drop)]
pub struct Run {
    pub number: u32,
    pub span: Span,
    pub stmt: u32,
    pub reads: CellList,
    pub sets: CellList,
}

/// The props of a component, in order of declaration.
pub type Props = sv_list::Items<Prop>;

/// The stores whose `$` names a component has, in the order of those. What is imported, or is in a cell, may turn out to be none.
pub type StoreCells = sv_list::Items<StoreCell>;

/// Module files, by number.
pub type ModuleList = sv_list::Items<u16>;

/// A prop: its name, and its cell.
#[derive(Clone, Copy, Debug, PartialEq, Eq)]
pub struct Prop {
    pub name: Name,
    pub cell: u8,
}

/// A cell that has the value of a store (`$x`): what is to hold the store, a cell or a constant of the component or what it imports between
/// braces; and where that is declared or imported. A cell that only reactive statements declare is declared by the first of them.
#[derive(Clone, Copy, Debug, PartialEq, Eq)]
pub struct StoreCell {
    pub cell: u8,
    pub holder: Known,
    pub span: Span,
}

/// A component: its cells by number; its props; the cells that only reactive statements declare; its store cells; the cell of the owner's
/// view, where it has a `<slot>`; how many constants it has; its reactive statements; its script, with them in it; and its markup.
#[derive(Drop)]
pub struct Component {
    pub cells: RefList,
    pub props: Props,
    pub reactive: CellList,
    pub stores: StoreCells,
    pub view: Option<u8>,
    pub constants: u32,
    pub runs: Runs,
    pub script: CodeStmts,
    pub markup: Frags,
}

/// A module: how many constants it has, and its script.
#[derive(Drop)]
pub struct Module {
    pub constants: u32,
    pub script: CodeStmts,
}

/// The code of a file.
#[derive(Drop)]
pub enum FileCode {
    Component(Component),
    Module(Module),
}

/// A file: its name, where its lines begin, and its code.
#[derive(Drop)]
pub struct ProgramFile {
    pub name: Text,
    pub lines: LineStarts,
    pub code: FileCode,
}

/// A compiled program: the texts of its names; its files; its functions, component tags and handlers by number; and its module files in the
/// order in which they run, each behind those that it imports.
#[derive(Drop)]
pub struct Program {
    pub names: Names,
    pub files: ProgramFiles,
    pub functions: Functions,
    pub tags: Tags,
    pub handlers: Handlers,
    pub modules: ModuleList,
}
