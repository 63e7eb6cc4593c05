// Operators before an operand and between two.
ghost use Rattle.std.specs.Prelude.{◌≡◌, ◌+◌, ◌<◌, [], IfOk};
ghost use Rattle.sv_expr.specs.Below.{Nests};
ghost use Rattle.sv_expr.specs.Limits.{real};
ghost use Rattle.sv_expr.specs.Rules as spec;
ghost use Rattle.sv_lex.specs.Reader.{Reads};
ghost use Rattle.sv_expr.specs.Nodes as nodes;

use crate::below::Enclosed;
use crate::form::Form;
use crate::grammar::Grammar;
use crate::leaves::target;
use crate::operators::operator_in;
use crate::quotients::{Left, fits, left_by, left_of};
use std::alloc::Global;
use sv_ast::{Expr, ExprKind, Kind, Link, Links, ParseError, Stmts};
use sv_base::{LINK_LIMIT, NoMemory, Span};
use sv_lex::{Lexeme, Tokens, same_lexeme};
use sv_list::Items;

impl<
    B: Enclosed,
    F: Fn(Global, &mut Tokens<'_>, usize, Form) -> Result<Expr, ParseError>,
    G: Fn(Global, &mut Tokens<'_>, usize) -> Result<Stmts, ParseError>,
> Grammar<B, F, G> {
    #[tactic(auto, unfolding(crate::specs::Rules::negation))]
    fn negation(&self, tokens: &mut Tokens<'_>) -> Result<Expr, ParseError>
        requires { Nests (B.readers self.now.room) self.now.room (F.pre self.now.inside) (F.post self.now.inside) (G.pre self.now.block) (G.post self.now.block) }
        ensures { Reads (spec.negation real self.now.room (B.readers self.now.room) tokens.old) result tokens.new }
    {
        let from = tokens.start();
        tokens.take();
        let operand = self.enclosed(tokens, Form::Operand)?;
        Ok(Expr::new(self.alloc, tokens.span_from(from), ExprKind::Not(operand))?)
    }

    #[tactic(auto, unfolding(crate::specs::Rules::minus))]
    fn minus(&self, tokens: &mut Tokens<'_>) -> Result<Expr, ParseError>
        requires { Nests (B.readers self.now.room) self.now.room (F.pre self.now.inside) (F.post self.now.inside) (G.pre self.now.block) (G.post self.now.block) }
        ensures { Reads (spec.minus real self.now.room (B.readers self.now.room) tokens.old) result tokens.new }
    {
        let from = tokens.start();
        tokens.take();
        let operand = self.enclosed(tokens, Form::Operand)?;
        Ok(Expr::new(self.alloc, tokens.span_from(from), ExprKind::Minus(operand))?)
    }

    // `++` or `--` before its target.
    #[tactic(auto, unfolding(crate::specs::Rules::bumped))]
    fn bumped(&self, tokens: &mut Tokens<'_>, up: bool) -> Result<Expr, ParseError>
        ensures { Reads (spec.bumped real self.now.room (B.readers self.now.room) up tokens.old) result tokens.new }
    {
        let from = tokens.start();
        tokens.take();
        self.opened(tokens)?;
        let target = target(tokens)?;
        let prefix = true;
        let kind = ExprKind::Bump { target, up, prefix };
        Ok(Expr::new(self.alloc, tokens.span_from(from), kind)?)
    }

    #[tactic(auto, unfolding(crate::specs::Rules::prefix))]
    pub(crate) fn prefix(&self, tokens: &mut Tokens<'_>) -> Result<Expr, ParseError>
        requires { Nests (B.readers self.now.room) self.now.room (F.pre self.now.inside) (F.post self.now.inside) (G.pre self.now.block) (G.post self.now.block) }
        ensures { Reads (spec.prefix real self.now.room (B.readers self.now.room) tokens.old) result tokens.new }
    {
        match tokens.peek() {
            Lexeme::Bang => self.negation(tokens),
            Lexeme::Minus => self.minus(tokens),
            Lexeme::PlusPlus => self.bumped(tokens, true),
            Lexeme::MinusMinus => self.bumped(tokens, false),
            Lexeme::Name | Lexeme::Store => self.targeted(tokens),
            _ => self.suffixed(tokens),
        }
    }

    // The operators of a group between operands of the groups up to `below`, behind the first of those, at
    // most so many.
    #[cycle(binary)]
    fn links(
        &self,
        tokens: &mut Tokens<'_>,
        below: u8,
        group: u8,
        most: usize,
        first: Left,
    ) -> Result<Links, ParseError>
        requires { Nests (B.readers self.now.room) self.now.room (F.pre self.now.inside) (F.post self.now.inside) (G.pre self.now.block) (G.post self.now.block) }
        ensures { Reads (spec.links (spec.binary real self.now.room (B.readers self.now.room) below) group most first [] tokens.old) result tokens.new }
    {
        let mut found = Items::new(self.alloc);
        let mut left = first;
        for _turn in 0..most {
            let Some(op) = operator_in(group, tokens.peek()) else {
                return Ok(found);
            };
            let refusal = tokens.refuse(Kind::Syntax);
            tokens.take();
            let right = self.binary(tokens, below)?;
            if !fits(left, op, &right) {
                return Err(refusal);
            }
            left = left_by(op);
            found.push(Link { op, right })?;
        }
        if operator_in(group, tokens.peek()).is_some() {
            return Err(tokens.refuse(Kind::TooDeep));
        }
        Ok(found)
    }

    // The operators of a group, behind their first operand.
    #[tactic(auto, unfolding(crate::specs::Rules::extended))]
    #[cycle(binary)]
    fn extended(
        &self,
        tokens: &mut Tokens<'_>,
        below: u8,
        group: u8,
        from: u32,
        first: Expr,
    ) -> Result<Expr, ParseError>
        requires { Nests (B.readers self.now.room) self.now.room (F.pre self.now.inside) (F.post self.now.inside) (G.pre self.now.block) (G.post self.now.block) }
        ensures { Reads (spec.extended real self.now.room (B.readers self.now.room) (spec.binary real self.now.room (B.readers self.now.room) below) group from first tokens.old) result tokens.new }
    {
        let left = left_of(&first);
        let found = self.links(tokens, below, group, LINK_LIMIT, left)?;
        Ok(chain(self.alloc, tokens.span_from(from), first, found)?)
    }

    // The operators of the groups up to this one, and 0 for an operand.
    #[cycle(binary)]
    fn binary(&self, tokens: &mut Tokens<'_>, group: u8) -> Result<Expr, ParseError>
        requires { Nests (B.readers self.now.room) self.now.room (F.pre self.now.inside) (F.post self.now.inside) (G.pre self.now.block) (G.post self.now.block) }
        ensures { Reads (spec.binary real self.now.room (B.readers self.now.room) group tokens.old) result tokens.new }
    {
        if group == 0 {
            return self.prefix(tokens);
        }
        let from = tokens.start();
        let first = self.binary(tokens, group - 1)?;
        self.extended(tokens, group - 1, group, from, first)
    }

    // `??`, behind its first operand, without `&&` or `||`.
    #[tactic(auto, unfolding(crate::specs::Rules::nullish))]
    fn nullish(&self, tokens: &mut Tokens<'_>, from: u32, first: Expr) -> Result<Expr, ParseError>
        requires { Nests (B.readers self.now.room) self.now.room (F.pre self.now.inside) (F.post self.now.inside) (G.pre self.now.block) (G.post self.now.block) }
        ensures { Reads (spec.nullish real self.now.room (B.readers self.now.room) from first tokens.old) result tokens.new }
    {
        let whole = self.extended(tokens, 4, 7, from, first)?;
        let whole = unmixed(tokens, 5, whole)?;
        unmixed(tokens, 6, whole)
    }

    // `&&` and `||`, behind their first operand, without `??`.
    #[tactic(auto, unfolding(crate::specs::Rules::either))]
    fn either(&self, tokens: &mut Tokens<'_>, from: u32, first: Expr) -> Result<Expr, ParseError>
        requires { Nests (B.readers self.now.room) self.now.room (F.pre self.now.inside) (F.post self.now.inside) (G.pre self.now.block) (G.post self.now.block) }
        ensures { Reads (spec.either real self.now.room (B.readers self.now.room) from first tokens.old) result tokens.new }
    {
        let first = self.extended(tokens, 4, 5, from, first)?;
        let whole = self.extended(tokens, 5, 6, from, first)?;
        unmixed(tokens, 7, whole)
    }

    #[tactic(auto, unfolding(crate::specs::Rules::logical))]
    pub(crate) fn logical(&self, tokens: &mut Tokens<'_>) -> Result<Expr, ParseError>
        requires { Nests (B.readers self.now.room) self.now.room (F.pre self.now.inside) (F.post self.now.inside) (G.pre self.now.block) (G.post self.now.block) }
        ensures { Reads (spec.logical real self.now.room (B.readers self.now.room) tokens.old) result tokens.new }
    {
        let from = tokens.start();
        let first = self.binary(tokens, 4)?;
        if same_lexeme(tokens.peek(), Lexeme::Nullish) {
            self.nullish(tokens, from, first)
        } else {
            self.either(tokens, from, first)
        }
    }
}

// An operand and the operators of one level behind it; without any it is itself.
#[tactic(auto, unfolding(crate::specs::Nodes::chain))]
fn chain(alloc: Global, span: Span, first: Expr, found: Links) -> Result<Expr, NoMemory>
    ensures { IfOk result (λ made. made ≡ nodes.chain span first found) }
{
    if found.is_empty() {
        return Ok(first);
    }
    let rest = found;
    Expr::new(alloc, span, ExprKind::Chain { first, rest })
}

// The expression, if no operator of the group comes.
#[tactic(auto, unfolding(crate::specs::Rules::unmixed))]
fn unmixed(tokens: &Tokens<'_>, group: u8, of: Expr) -> Result<Expr, ParseError>
    ensures { Reads (spec.unmixed group of tokens.now) result tokens.now }
{
    if operator_in(group, tokens.peek()).is_some() {
        return Err(tokens.refuse(Kind::Syntax));
    }
    Ok(of)
}
