// Loops.
ghost use Rattle.sv_expr.specs.Limits.{real};
ghost use Rattle.sv_lex.specs.Reader.{Reads};
ghost use Rattle.sv_script.specs.Below.{Holds};
ghost use Rattle.sv_script.specs.Places.{looped};
ghost use Rattle.sv_script.specs.Rules as spec;
ghost use Rattle.sv_script.specs.Script.{bodies};

use crate::contextual::word_as;
use crate::leaves::begins_each;
use crate::place::Place;
use crate::statements::Statements;
use std::alloc::Global;
use sv_ast::{Expr, ParseError, Stmt, StmtKind, Stmts};
use sv_expr::Form;
use sv_lex::{Lexeme, Tokens};

impl<
    F: Fn(Global, &mut Tokens<'_>, usize, Form) -> Result<Expr, ParseError>,
    G: Fn(Global, &mut Tokens<'_>, usize) -> Result<Stmts, ParseError>,
    H: Fn(Global, &mut Tokens<'_>, usize, Place) -> Result<Stmts, ParseError>,
    K: Fn(Global, &mut Tokens<'_>, usize, Place) -> Result<Stmt, ParseError>,
> Statements<F, G, H, K> {
    // The body of a loop.
    fn turn(&self, tokens: &mut Tokens<'_>, place: Place) -> Result<Stmt, ParseError>
        requires { Holds (bodies real self.now.exprs.room) self.now.exprs.room (F.pre self.now.exprs.inside) (F.post self.now.exprs.inside) (G.pre self.now.exprs.block) (G.post self.now.exprs.block) (H.pre self.now.block) (H.post self.now.block) (K.pre self.now.body) (K.post self.now.body) }
        ensures { Reads ((bodies real self.now.exprs.room).body (looped place) tokens.old) result tokens.new }
    {
        self.body(tokens, place.looped())
    }

    #[tactic(auto, unfolding(crate::specs::Rules::while_statement))]
    pub(crate) fn while_statement(
        &self,
        tokens: &mut Tokens<'_>,
        place: Place,
    ) -> Result<Stmt, ParseError>
        requires { Holds (bodies real self.now.exprs.room) self.now.exprs.room (F.pre self.now.exprs.inside) (F.post self.now.exprs.inside) (G.pre self.now.exprs.block) (G.post self.now.exprs.block) (H.pre self.now.block) (H.post self.now.block) (K.pre self.now.body) (K.post self.now.body) }
        ensures { Reads (spec.while_statement real self.now.exprs.room (bodies real self.now.exprs.room) place tokens.old) result tokens.new }
    {
        let from = tokens.start();
        tokens.take();
        let test = self.bracketed(tokens)?;
        let body = self.turn(tokens, place)?;
        let kind = StmtKind::While { test, body };
        Ok(Stmt::new(self.exprs.alloc, tokens.span_from(from), kind)?)
    }

    // `of` and the list, up to the closing bracket.
    #[tactic(auto, unfolding(crate::specs::Rules::list_behind))]
    fn list_behind(&self, tokens: &mut Tokens<'_>) -> Result<Expr, ParseError>
        requires { Holds (bodies real self.now.exprs.room) self.now.exprs.room (F.pre self.now.exprs.inside) (F.post self.now.exprs.inside) (G.pre self.now.exprs.block) (G.post self.now.exprs.block) (H.pre self.now.block) (H.post self.now.block) (K.pre self.now.body) (K.post self.now.body) }
        ensures { Reads (spec.list_behind real self.now.exprs.room (bodies real self.now.exprs.room) tokens.old) result tokens.new }
    {
        word_as(tokens, "of")?;
        let list = self.enclosed(tokens)?;
        tokens.expect(Lexeme::RParen)?;
        Ok(list)
    }

    // A loop over a list, behind its opening bracket.
    #[tactic(auto, unfolding(crate::specs::Rules::each))]
    fn each(&self, tokens: &mut Tokens<'_>, place: Place, from: u32) -> Result<Stmt, ParseError>
        requires { Holds (bodies real self.now.exprs.room) self.now.exprs.room (F.pre self.now.exprs.inside) (F.post self.now.exprs.inside) (G.pre self.now.exprs.block) (G.post self.now.exprs.block) (H.pre self.now.block) (H.post self.now.block) (K.pre self.now.body) (K.post self.now.body) }
        ensures { Reads (spec.each real self.now.exprs.room (bodies real self.now.exprs.room) place from tokens.old) result tokens.new }
    {
        let fixed = tokens.sees(Lexeme::Const);
        tokens.take();
        let name = tokens.name()?;
        let list = self.list_behind(tokens)?;
        let body = self.turn(tokens, place)?;
        let kind = StmtKind::Each {
            name,
            fixed,
            list,
            body,
        };
        Ok(Stmt::new(self.exprs.alloc, tokens.span_from(from), kind)?)
    }

    #[tactic(auto, unfolding(crate::specs::Rules::head_let))]
    fn head_let(&self, tokens: &mut Tokens<'_>) -> Result<Stmt, ParseError>
        requires { Holds (bodies real self.now.exprs.room) self.now.exprs.room (F.pre self.now.exprs.inside) (F.post self.now.exprs.inside) (G.pre self.now.exprs.block) (G.post self.now.exprs.block) (H.pre self.now.block) (H.post self.now.block) (K.pre self.now.body) (K.post self.now.body) }
        ensures { Reads (spec.head_let real self.now.exprs.room (bodies real self.now.exprs.room) tokens.old) result tokens.new }
    {
        let from = tokens.start();
        let found = self.variables(tokens, true)?;
        let kind = StmtKind::Let(found);
        Ok(Stmt::new(self.exprs.alloc, tokens.span_from(from), kind)?)
    }

    #[tactic(auto, unfolding(crate::specs::Rules::head_value))]
    fn head_value(&self, tokens: &mut Tokens<'_>) -> Result<Stmt, ParseError>
        requires { Holds (bodies real self.now.exprs.room) self.now.exprs.room (F.pre self.now.exprs.inside) (F.post self.now.exprs.inside) (G.pre self.now.exprs.block) (G.post self.now.exprs.block) (H.pre self.now.block) (H.post self.now.block) (K.pre self.now.body) (K.post self.now.body) }
        ensures { Reads (spec.head_value real self.now.exprs.room (bodies real self.now.exprs.room) tokens.old) result tokens.new }
    {
        let from = tokens.start();
        let value = self.enclosed(tokens)?;
        let kind = StmtKind::Eval(value);
        Ok(Stmt::new(self.exprs.alloc, tokens.span_from(from), kind)?)
    }

    #[tactic(auto, unfolding(crate::specs::Rules::head_statement))]
    fn head_statement(&self, tokens: &mut Tokens<'_>) -> Result<Stmt, ParseError>
        requires { Holds (bodies real self.now.exprs.room) self.now.exprs.room (F.pre self.now.exprs.inside) (F.post self.now.exprs.inside) (G.pre self.now.exprs.block) (G.post self.now.exprs.block) (H.pre self.now.block) (H.post self.now.block) (K.pre self.now.body) (K.post self.now.body) }
        ensures { Reads (spec.head_statement real self.now.exprs.room (bodies real self.now.exprs.room) tokens.old) result tokens.new }
    {
        if tokens.sees(Lexeme::Let) {
            self.head_let(tokens)
        } else {
            self.head_value(tokens)
        }
    }

    // What a loop begins with, up to its `;`.
    #[tactic(auto, unfolding(crate::specs::Rules::head_first))]
    fn head_first(&self, tokens: &mut Tokens<'_>) -> Result<Option<Stmt>, ParseError>
        requires { Holds (bodies real self.now.exprs.room) self.now.exprs.room (F.pre self.now.exprs.inside) (F.post self.now.exprs.inside) (G.pre self.now.exprs.block) (G.post self.now.exprs.block) (H.pre self.now.block) (H.post self.now.block) (K.pre self.now.body) (K.post self.now.body) }
        ensures { Reads (spec.head_first real self.now.exprs.room (bodies real self.now.exprs.room) tokens.old) result tokens.new }
    {
        if tokens.eat(Lexeme::Semi) {
            return Ok(None);
        }
        let first = self.head_statement(tokens)?;
        tokens.expect(Lexeme::Semi)?;
        Ok(Some(first))
    }

    // An expression or none, up to a token.
    #[tactic(auto, unfolding(crate::specs::Rules::head_value_upto))]
    fn head_value_upto(
        &self,
        tokens: &mut Tokens<'_>,
        close: Lexeme,
    ) -> Result<Option<Expr>, ParseError>
        requires { Holds (bodies real self.now.exprs.room) self.now.exprs.room (F.pre self.now.exprs.inside) (F.post self.now.exprs.inside) (G.pre self.now.exprs.block) (G.post self.now.exprs.block) (H.pre self.now.block) (H.post self.now.block) (K.pre self.now.body) (K.post self.now.body) }
        ensures { Reads (spec.head_value_upto real self.now.exprs.room (bodies real self.now.exprs.room) close tokens.old) result tokens.new }
    {
        if tokens.eat(close) {
            return Ok(None);
        }
        let value = self.enclosed(tokens)?;
        tokens.expect(close)?;
        Ok(Some(value))
    }

    // A loop by steps, behind its opening bracket.
    #[tactic(auto, unfolding(crate::specs::Rules::steps))]
    fn steps(&self, tokens: &mut Tokens<'_>, place: Place, from: u32) -> Result<Stmt, ParseError>
        requires { Holds (bodies real self.now.exprs.room) self.now.exprs.room (F.pre self.now.exprs.inside) (F.post self.now.exprs.inside) (G.pre self.now.exprs.block) (G.post self.now.exprs.block) (H.pre self.now.block) (H.post self.now.block) (K.pre self.now.body) (K.post self.now.body) }
        ensures { Reads (spec.steps real self.now.exprs.room (bodies real self.now.exprs.room) place from tokens.old) result tokens.new }
    {
        let first = self.head_first(tokens)?;
        let test = self.head_value_upto(tokens, Lexeme::Semi)?;
        let next = self.head_value_upto(tokens, Lexeme::RParen)?;
        let body = self.turn(tokens, place)?;
        let kind = StmtKind::For {
            first,
            test,
            next,
            body,
        };
        Ok(Stmt::new(self.exprs.alloc, tokens.span_from(from), kind)?)
    }

    #[tactic(auto, unfolding(crate::specs::Rules::for_statement))]
    pub(crate) fn for_statement(
        &self,
        tokens: &mut Tokens<'_>,
        place: Place,
    ) -> Result<Stmt, ParseError>
        requires { Holds (bodies real self.now.exprs.room) self.now.exprs.room (F.pre self.now.exprs.inside) (F.post self.now.exprs.inside) (G.pre self.now.exprs.block) (G.post self.now.exprs.block) (H.pre self.now.block) (H.post self.now.block) (K.pre self.now.body) (K.post self.now.body) }
        ensures { Reads (spec.for_statement real self.now.exprs.room (bodies real self.now.exprs.room) place tokens.old) result tokens.new }
    {
        let from = tokens.start();
        tokens.take();
        tokens.expect(Lexeme::LParen)?;
        if begins_each(tokens) {
            self.each(tokens, place, from)
        } else {
            self.steps(tokens, place, from)
        }
    }
}
