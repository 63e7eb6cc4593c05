// The expressions of markup, with the names that they look at.
ghost use Rattle.std.specs.Prelude.{◌≡◌};
ghost use Rattle.sv_code.specs.Within.{is_among};

use crate::code::Code;
use sv_base::{Name, Span};

/// Cells of a component, by number.
pub type CellList = sv_list::Items<u8>;

/// Names that a row of an each block or slot content declares.
pub type Locals = sv_list::Items<Name>;

/// What is looked at: cells, with ascending numbers, and locals, by first appearance. Constants never change and are left out.
#[derive(Drop)]
pub struct Reading {
    pub cells: CellList,
    pub locals: Locals,
}

/// Functions of a program, by number: those from one on and below another.
#[derive(Clone, Copy, Debug, PartialEq, Eq)]
pub struct Arrows {
    pub from: u32,
    pub to: u32,
}

impl Arrows {
    /// Whether a function is one of them.
    pub fn contains(self, function: u32) -> bool
        ensures { result ≡ is_among function self }
    {
        self.from <= function && function < self.to
    }
}

/// An expression of markup: its place, its code, the arrows that are written in it, and the names whose change makes its value stale.
#[derive(Drop)]
pub struct Part {
    pub span: Span,
    pub code: Code,
    pub arrows: Arrows,
    pub reads: Reading,
}
