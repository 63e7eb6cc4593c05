// What is done where an event comes to an element.
use std::marker::Model;
use sv_base::Span;
use sv_code::Known;
use sv_value::Inst;
use sv_view::Locals;

/// The variable that a binding assigns, and the place of its directive.
#[derive(Clone, Copy, Debug, PartialEq, Eq)]
pub struct Binding {
    pub target: Known,
    pub span: Span,
}

/// A directive that events are told.
#[derive(Clone, Copy, Debug, PartialEq, Eq)]
pub enum Directive {
    /// `on:`: the number of its handler among those of the program.
    Handler(u32),
    /// `bind:value`.
    BindValue(Binding),
    /// `bind:checked`.
    BindChecked(Binding),
}

/// A directive of an element, with the instance in whose markup it is written, and the row locals and slot props that are seen
/// there. A clause sees the instance as its number.
#[derive(Drop)]
pub struct Listener {
    pub inst: Inst,
    pub at: Directive,
    pub locals: Locals,
}

impl Model for Listener {
    ghost use Rattle.std.specs.Coded.{codes};
    ghost use Rattle.sv_document.specs.Listener.{Listener};
    ghost use Rattle.sv_document.specs.contracts.listener.Directive as directive;
    ghost use Rattle.sv_view.specs.Local.{local_code};

    ghost Value = { Listener };

    ghost coded = { Prim.hlevel (codes, local_code, directive.the_row.coded) };

    ghost view = { λ l. record { inst = l.inst.number; at = l.at; locals = l.locals } };
}
