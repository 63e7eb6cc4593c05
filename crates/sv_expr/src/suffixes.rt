// Names, and what stands behind a primary expression.
ghost use Rattle.std.specs.Prelude.{◌≡◌};
ghost use Rattle.sv_expr.specs.Below.{Nests};
ghost use Rattle.sv_expr.specs.Limits.{real};
ghost use Rattle.sv_expr.specs.Rules as spec;
ghost use Rattle.sv_lex.specs.Reader.{Reads};

use crate::below::Enclosed;
use crate::form::Form;
use crate::grammar::Grammar;
use crate::leaves::target;
use crate::lists::listed;
use crate::operators::{begins_suffix, bump_behind};
use crate::quotients::{argument, is_quotient, is_single, rounds};
use std::alloc::Global;
use sv_ast::{Expr, ExprKind, Kind, ParseError, Stmts};
use sv_base::LINK_LIMIT;
use sv_lex::{Lexeme, Tokens};

impl<
    B: Enclosed,
    F: Fn(Global, &mut Tokens<'_>, usize, Form) -> Result<Expr, ParseError>,
    G: Fn(Global, &mut Tokens<'_>, usize) -> Result<Stmts, ParseError>,
> Grammar<B, F, G> {
    #[tactic(auto, unfolding(crate::specs::Rules::member))]
    fn member(&self, tokens: &mut Tokens<'_>, from: u32, of: Expr) -> Result<Expr, ParseError>
        ensures { Reads (spec.member real self.now.room (B.readers self.now.room) from of tokens.old) result tokens.new }
    {
        tokens.take();
        let word = tokens.word()?.name;
        let kind = ExprKind::Member { of, word };
        Ok(Expr::new(self.alloc, tokens.span_from(from), kind)?)
    }

    #[tactic(auto, unfolding(crate::specs::Rules::index))]
    fn index(&self, tokens: &mut Tokens<'_>, from: u32, of: Expr) -> Result<Expr, ParseError>
        requires { Nests (B.readers self.now.room) self.now.room (F.pre self.now.inside) (F.post self.now.inside) (G.pre self.now.block) (G.post self.now.block) }
        ensures { Reads (spec.index real self.now.room (B.readers self.now.room) from of tokens.old) result tokens.new }
    {
        tokens.take();
        let at = self.enclosed(tokens, Form::Whole)?;
        tokens.expect(Lexeme::RBracket)?;
        let kind = ExprKind::Index { of, at };
        Ok(Expr::new(self.alloc, tokens.span_from(from), kind)?)
    }

    #[tactic(auto, unfolding(crate::specs::Rules::call))]
    fn call(&self, tokens: &mut Tokens<'_>, from: u32, of: Expr) -> Result<Expr, ParseError>
        requires { Nests (B.readers self.now.room) self.now.room (F.pre self.now.inside) (F.post self.now.inside) (G.pre self.now.block) (G.post self.now.block) }
        ensures { Reads (spec.call real self.now.room (B.readers self.now.room) from of tokens.old) result tokens.new }
    {
        let refusal = tokens.refuse(Kind::Syntax);
        let form = argument(rounds(&of, tokens));
        self.opened(tokens)?;
        tokens.take();
        let argument = |tokens: &mut Tokens<'_>| -> Result<Expr, ParseError>
            requires { Nests (B.readers self.now.room) self.now.room (F.pre self.now.inside) (F.post self.now.inside) (G.pre self.now.block) (G.post self.now.block) }
            ensures { Reads ((B.readers self.entry.now.room).inside form tokens.old) result tokens.new }
        { self.enclosed(tokens, form) };
        let args = listed(self.alloc, tokens, Lexeme::RParen, argument)?;
        if !is_single(args.as_slice()) {
            return Err(refusal);
        }
        let kind = ExprKind::Call { of, args };
        Ok(Expr::new(self.alloc, tokens.span_from(from), kind)?)
    }

    #[tactic(auto, unfolding(crate::specs::Rules::suffix))]
    fn suffix(&self, tokens: &mut Tokens<'_>, from: u32, of: Expr) -> Result<Expr, ParseError>
        requires { Nests (B.readers self.now.room) self.now.room (F.pre self.now.inside) (F.post self.now.inside) (G.pre self.now.block) (G.post self.now.block) }
        ensures { Reads (spec.suffix real self.now.room (B.readers self.now.room) from of tokens.old) result tokens.new }
    {
        if is_quotient(&of) {
            return Err(tokens.refuse(Kind::Syntax));
        }
        match tokens.peek() {
            Lexeme::Dot => self.member(tokens, from, of),
            Lexeme::LBracket => self.index(tokens, from, of),
            _ => self.call(tokens, from, of),
        }
    }

    // Suffixes behind an expression, at most so many.
    fn suffixes(
        &self,
        tokens: &mut Tokens<'_>,
        from: u32,
        most: usize,
        first: Expr,
    ) -> Result<Expr, ParseError>
        requires { Nests (B.readers self.now.room) self.now.room (F.pre self.now.inside) (F.post self.now.inside) (G.pre self.now.block) (G.post self.now.block) }
        ensures { Reads (spec.suffixes real self.now.room (B.readers self.now.room) from most first tokens.old) result tokens.new }
    {
        let mut whole = first;
        for _turn in 0..most {
            if !begins_suffix(tokens.peek()) {
                return Ok(whole);
            }
            whole = self.suffix(tokens, from, whole)?;
        }
        if begins_suffix(tokens.peek()) {
            return Err(tokens.refuse(Kind::TooDeep));
        }
        Ok(whole)
    }

    // A target, with `++` or `--` behind it or with suffixes.
    #[tactic(auto, unfolding(crate::specs::Rules::targeted))]
    pub(crate) fn targeted(&self, tokens: &mut Tokens<'_>) -> Result<Expr, ParseError>
        requires { Nests (B.readers self.now.room) self.now.room (F.pre self.now.inside) (F.post self.now.inside) (G.pre self.now.block) (G.post self.now.block) }
        ensures { Reads (spec.targeted real self.now.room (B.readers self.now.room) tokens.old) result tokens.new }
    {
        let from = tokens.start();
        let target = target(tokens)?;
        match bump_behind(tokens) {
            Some(up) => {
                tokens.take();
                let prefix = false;
                let kind = ExprKind::Bump { target, up, prefix };
                Ok(Expr::new(self.alloc, tokens.span_from(from), kind)?)
            }
            None => {
                let read = Expr::new(self.alloc, tokens.span_from(from), ExprKind::Read(target))?;
                self.suffixes(tokens, from, LINK_LIMIT, read)
            }
        }
    }

    #[tactic(auto, unfolding(crate::specs::Rules::suffixed))]
    pub(crate) fn suffixed(&self, tokens: &mut Tokens<'_>) -> Result<Expr, ParseError>
        requires { Nests (B.readers self.now.room) self.now.room (F.pre self.now.inside) (F.post self.now.inside) (G.pre self.now.block) (G.post self.now.block) }
        ensures { Reads (spec.suffixed real self.now.room (B.readers self.now.room) tokens.old) result tokens.new }
    {
        let from = tokens.start();
        let first = self.primary(tokens)?;
        self.suffixes(tokens, from, LINK_LIMIT, first)
    }
}
