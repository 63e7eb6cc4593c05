// `if` and its branches.
ghost use Rattle.std.specs.Prelude.{[]};
ghost use Rattle.sv_expr.specs.Limits.{real};
ghost use Rattle.sv_lex.specs.Reader.{Reads};
ghost use Rattle.sv_script.specs.Below.{Holds};
ghost use Rattle.sv_script.specs.Rules as spec;
ghost use Rattle.sv_script.specs.Script.{bodies};

use crate::leaves::begins_arm;
use crate::place::Place;
use crate::statements::Statements;
use std::alloc::Global;
use sv_ast::{Arm, Arms, Expr, Kind, ParseError, Stmt, StmtKind, Stmts};
use sv_base::LINK_LIMIT;
use sv_expr::Form;
use sv_lex::{Lexeme, Tokens};
use sv_list::Items;

impl<
    F: Fn(Global, &mut Tokens<'_>, usize, Form) -> Result<Expr, ParseError>,
    G: Fn(Global, &mut Tokens<'_>, usize) -> Result<Stmts, ParseError>,
    H: Fn(Global, &mut Tokens<'_>, usize, Place) -> Result<Stmts, ParseError>,
    K: Fn(Global, &mut Tokens<'_>, usize, Place) -> Result<Stmt, ParseError>,
> Statements<F, G, H, K> {
    // An expression in round brackets.
    #[tactic(auto, unfolding(crate::specs::Rules::bracketed))]
    pub(crate) fn bracketed(&self, tokens: &mut Tokens<'_>) -> Result<Expr, ParseError>
        requires { Holds (bodies real self.now.exprs.room) self.now.exprs.room (F.pre self.now.exprs.inside) (F.post self.now.exprs.inside) (G.pre self.now.exprs.block) (G.post self.now.exprs.block) (H.pre self.now.block) (H.post self.now.block) (K.pre self.now.body) (K.post self.now.body) }
        ensures { Reads (spec.bracketed real self.now.exprs.room (bodies real self.now.exprs.room) tokens.old) result tokens.new }
    {
        tokens.expect(Lexeme::LParen)?;
        let test = self.enclosed(tokens)?;
        tokens.expect(Lexeme::RParen)?;
        Ok(test)
    }

    #[tactic(auto, unfolding(crate::specs::Rules::arm_of))]
    fn arm_of(&self, tokens: &mut Tokens<'_>, place: Place) -> Result<Arm, ParseError>
        requires { Holds (bodies real self.now.exprs.room) self.now.exprs.room (F.pre self.now.exprs.inside) (F.post self.now.exprs.inside) (G.pre self.now.exprs.block) (G.post self.now.exprs.block) (H.pre self.now.block) (H.post self.now.block) (K.pre self.now.body) (K.post self.now.body) }
        ensures { Reads (spec.arm_of real self.now.exprs.room (bodies real self.now.exprs.room) place tokens.old) result tokens.new }
    {
        tokens.take();
        let test = self.bracketed(tokens)?;
        let body = self.body(tokens, place)?;
        Ok(Arm { test, body })
    }

    // The branches that `else if` joins, at most so many.
    fn arms(&self, tokens: &mut Tokens<'_>, place: Place, most: usize) -> Result<Arms, ParseError>
        requires { Holds (bodies real self.now.exprs.room) self.now.exprs.room (F.pre self.now.exprs.inside) (F.post self.now.exprs.inside) (G.pre self.now.exprs.block) (G.post self.now.exprs.block) (H.pre self.now.block) (H.post self.now.block) (K.pre self.now.body) (K.post self.now.body) }
        ensures { Reads (spec.arms real self.now.exprs.room (bodies real self.now.exprs.room) place most [] tokens.old) result tokens.new }
    {
        let mut found = Items::new(self.exprs.alloc);
        for _turn in 0..most {
            found.push(self.arm_of(tokens, place)?)?;
            if !begins_arm(tokens) {
                return Ok(found);
            }
            tokens.take();
        }
        Err(tokens.refuse(Kind::TooDeep))
    }

    #[tactic(auto, unfolding(crate::specs::Rules::otherwise))]
    fn otherwise(&self, tokens: &mut Tokens<'_>, place: Place) -> Result<Option<Stmt>, ParseError>
        requires { Holds (bodies real self.now.exprs.room) self.now.exprs.room (F.pre self.now.exprs.inside) (F.post self.now.exprs.inside) (G.pre self.now.exprs.block) (G.post self.now.exprs.block) (H.pre self.now.block) (H.post self.now.block) (K.pre self.now.body) (K.post self.now.body) }
        ensures { Reads (spec.otherwise real self.now.exprs.room (bodies real self.now.exprs.room) place tokens.old) result tokens.new }
    {
        if tokens.eat(Lexeme::Else) {
            Ok(Some(self.body(tokens, place)?))
        } else {
            Ok(None)
        }
    }

    #[tactic(auto, unfolding(crate::specs::Rules::if_statement))]
    pub(crate) fn if_statement(
        &self,
        tokens: &mut Tokens<'_>,
        place: Place,
    ) -> Result<Stmt, ParseError>
        requires { Holds (bodies real self.now.exprs.room) self.now.exprs.room (F.pre self.now.exprs.inside) (F.post self.now.exprs.inside) (G.pre self.now.exprs.block) (G.post self.now.exprs.block) (H.pre self.now.block) (H.post self.now.block) (K.pre self.now.body) (K.post self.now.body) }
        ensures { Reads (spec.if_statement real self.now.exprs.room (bodies real self.now.exprs.room) place tokens.old) result tokens.new }
    {
        let from = tokens.start();
        let arms = self.arms(tokens, place, LINK_LIMIT)?;
        let last = self.otherwise(tokens, place)?;
        let kind = StmtKind::If { arms, last };
        Ok(Stmt::new(self.exprs.alloc, tokens.span_from(from), kind)?)
    }
}
