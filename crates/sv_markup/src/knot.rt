// The knot of nodes and constructs.
ghost use Rattle.std.specs.Prelude.{◌≤◌};
ghost use Rattle.sv_expr.specs.Limits.{real};
ghost use Rattle.sv_lex.specs.Reader.{Reads};
ghost use Rattle.sv_markup.specs.Rules as spec;

use crate::rules::Rules;
use std::alloc::Global;
use sv_ast::{Nodes, ParseError};
use sv_lex::Source;

/// The nodes in a construct, where so many may be opened, that one included; `owned` says that it is a component.
pub fn inside(
    alloc: Global,
    source: &mut Source<'_>,
    room: usize,
    owned: bool,
) -> Result<Nodes, ParseError>
    requires { 1 ≤ room }
    ensures { Reads (spec.inside real room owned source.old) result source.new }
{
    let rules = Rules {
        alloc,
        room: room - 1,
        inside,
    };
    rules.nodes(source, owned)
}
