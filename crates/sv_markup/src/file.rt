// Whole files.
ghost use Rattle.std.specs.Prelude.{◌≡◌, [], None, false};
ghost use Rattle.sv_expr.specs.Limits.{real};
ghost use Rattle.sv_lex.specs.Reader.{Reads};
ghost use Rattle.sv_markup.specs.Files as spec;
ghost use Rattle.sv_tags.specs.Openings.{Fills};

use crate::knot::inside;
use crate::pieces::{Piece, piece_at};
use crate::rules::{Rules, add};
use std::alloc::Global;
use sv_ast::{Kind, Nodes, ParseError, Stmts};
use sv_base::NEST_LIMIT;
use sv_lex::Source;
use sv_list::Items;
use sv_tags::{script, style};

/// What was found at the top of a component.
#[derive(Drop)]
pub struct Parts {
    pub nodes: Nodes,
    pub script: Option<Stmts>,
    pub has_style: bool,
}

// Reads one part more.
#[tactic(auto, unfolding(crate::specs::Files::part))]
fn part(alloc: Global, source: &mut Source<'_>, found: &mut Parts) -> Result<(), ParseError>
    ensures { Fills (spec.part real found.old source.old) result found.new source.new }
{
    let piece = piece_at(source.text());
    match piece {
        Piece::Script => {
            if found.script.is_some() {
                return Err(source.stop(Kind::OutOfScope));
            }
            found.script = Some(script(alloc, source)?);
        }
        Piece::Style => {
            if found.has_style {
                return Err(source.stop(Kind::OutOfScope));
            }
            style(source)?;
            found.has_style = true;
        }
        _ => {
            let rules = Rules {
                alloc,
                room: NEST_LIMIT,
                inside,
            };
            let node = rules.piece(source, false, piece)?;
            add(&mut found.nodes, node)?;
        }
    }
    Ok(())
}

/// The parts of a component, up to the end of the text.
#[tactic(auto, unfolding(crate::specs::Files::top))]
pub fn top(alloc: Global, source: &mut Source<'_>) -> Result<Parts, ParseError>
    ensures { Reads (spec.top real source.old) result source.new }
{
    let mut found = Parts {
        nodes: Items::new(alloc),
        script: None,
        has_style: false,
    };
    for _turn in 0..source.left() {
        if source.left() == 0 {
            return Ok(found);
        }
        part(alloc, source, &mut found)?;
    }
    if source.left() == 0 {
        Ok(found)
    } else {
        Err(source.stop(Kind::Syntax))
    }
}
