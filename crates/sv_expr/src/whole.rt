// Whole expressions: conditions, assignments and arrows.
ghost use Rattle.std.specs.Prelude.{◌≡◌};
ghost use Rattle.sv_expr.specs.Below.{Nests};
ghost use Rattle.sv_expr.specs.Limits.{real};
ghost use Rattle.sv_expr.specs.Rules as spec;
ghost use Rattle.sv_lex.specs.Reader.{Reads};

use crate::ahead::begins_arrow;
use crate::below::Enclosed;
use crate::form::Form;
use crate::grammar::Grammar;
use crate::leaves::{target, undivided};
use crate::lists::parameters;
use crate::operators::assigns;
use crate::quotients::is_quotient;
use std::alloc::Global;
use sv_ast::{AssignOp, Body, Expr, ExprKind, Kind, ParseError, Stmts};
use sv_lex::{Lexeme, Tokens, same_lexeme};

impl<
    B: Enclosed,
    F: Fn(Global, &mut Tokens<'_>, usize, Form) -> Result<Expr, ParseError>,
    G: Fn(Global, &mut Tokens<'_>, usize) -> Result<Stmts, ParseError>,
> Grammar<B, F, G> {
    // The statements of a block.
    #[tactic(auto)]
    fn block(&self, tokens: &mut Tokens<'_>) -> Result<Stmts, ParseError>
        requires { Nests (B.readers self.now.room) self.now.room (F.pre self.now.inside) (F.post self.now.inside) (G.pre self.now.block) (G.post self.now.block) }
        ensures { Reads ((B.readers self.now.room).block tokens.old) result tokens.new }
    {
        (self.block)(self.alloc, tokens, self.room)
    }

    // A condition, behind its test. A test that is a quotient is refused at the `?`.
    #[tactic(auto, unfolding(crate::specs::Rules::choice))]
    fn choice(&self, tokens: &mut Tokens<'_>, from: u32, test: Expr) -> Result<Expr, ParseError>
        requires { Nests (B.readers self.now.room) self.now.room (F.pre self.now.inside) (F.post self.now.inside) (G.pre self.now.block) (G.post self.now.block) }
        ensures { Reads (spec.choice real self.now.room (B.readers self.now.room) from test tokens.old) result tokens.new }
    {
        if is_quotient(&test) {
            return Err(tokens.refuse(Kind::Syntax));
        }
        tokens.take();
        let yes = self.enclosed(tokens, Form::Whole)?;
        tokens.expect(Lexeme::Colon)?;
        let no = self.enclosed(tokens, Form::Whole)?;
        let kind = ExprKind::Choose { test, yes, no };
        Ok(Expr::new(self.alloc, tokens.span_from(from), kind)?)
    }

    #[tactic(auto, unfolding(crate::specs::Rules::condition))]
    fn condition(&self, tokens: &mut Tokens<'_>) -> Result<Expr, ParseError>
        requires { Nests (B.readers self.now.room) self.now.room (F.pre self.now.inside) (F.post self.now.inside) (G.pre self.now.block) (G.post self.now.block) }
        ensures { Reads (spec.condition real self.now.room (B.readers self.now.room) tokens.old) result tokens.new }
    {
        let from = tokens.start();
        let test = self.logical(tokens)?;
        if same_lexeme(tokens.peek(), Lexeme::Question) {
            self.choice(tokens, from, test)
        } else {
            Ok(test)
        }
    }

    #[tactic(auto, unfolding(crate::specs::Rules::assignment))]
    fn assignment(&self, tokens: &mut Tokens<'_>, op: AssignOp) -> Result<Expr, ParseError>
        requires { Nests (B.readers self.now.room) self.now.room (F.pre self.now.inside) (F.post self.now.inside) (G.pre self.now.block) (G.post self.now.block) }
        ensures { Reads (spec.assignment real self.now.room (B.readers self.now.room) op tokens.old) result tokens.new }
    {
        let from = tokens.start();
        let target = target(tokens)?;
        tokens.take();
        let value = self.enclosed(tokens, Form::Whole)?;
        let kind = ExprKind::Assign { target, op, value };
        Ok(Expr::new(self.alloc, tokens.span_from(from), kind)?)
    }

    // The body of an arrow. One that begins with a brace is a block.
    #[tactic(auto, unfolding(crate::specs::Rules::body))]
    fn body(&self, tokens: &mut Tokens<'_>) -> Result<Body, ParseError>
        requires { Nests (B.readers self.now.room) self.now.room (F.pre self.now.inside) (F.post self.now.inside) (G.pre self.now.block) (G.post self.now.block) }
        ensures { Reads (spec.body real self.now.room (B.readers self.now.room) tokens.old) result tokens.new }
    {
        match tokens.peek() {
            Lexeme::LBrace => Ok(Body::Block(self.block(tokens)?)),
            _ => {
                let value = self.enclosed(tokens, Form::Whole)?;
                Ok(Body::Value(value))
            }
        }
    }

    #[tactic(auto, unfolding(crate::specs::Rules::arrow))]
    fn arrow(&self, tokens: &mut Tokens<'_>) -> Result<Expr, ParseError>
        requires { Nests (B.readers self.now.room) self.now.room (F.pre self.now.inside) (F.post self.now.inside) (G.pre self.now.block) (G.post self.now.block) }
        ensures { Reads (spec.arrow real self.now.room (B.readers self.now.room) tokens.old) result tokens.new }
    {
        let from = tokens.start();
        let params = parameters(self.alloc, tokens)?;
        tokens.expect(Lexeme::Arrow)?;
        let body = self.body(tokens)?;
        let kind = ExprKind::Arrow { params, body };
        Ok(Expr::new(self.alloc, tokens.span_from(from), kind)?)
    }

    // An expression, which may be a quotient.
    #[tactic(auto, unfolding(crate::specs::Rules::whole))]
    fn whole(&self, tokens: &mut Tokens<'_>) -> Result<Expr, ParseError>
        requires { Nests (B.readers self.now.room) self.now.room (F.pre self.now.inside) (F.post self.now.inside) (G.pre self.now.block) (G.post self.now.block) }
        ensures { Reads (spec.whole real self.now.room (B.readers self.now.room) tokens.old) result tokens.new }
    {
        if begins_arrow(tokens.text()) {
            return self.arrow(tokens);
        }
        match assigns(tokens) {
            Some(op) => self.assignment(tokens, op),
            None => self.condition(tokens),
        }
    }

    /// An expression in one of its forms, read as far as it goes. What is no expression is refused at the token that can't
    /// go on, a quotient that stands alone as a whole. `TooDeep` comes for a construct where there is no more room, and for
    /// a chain of more links than there may be, `NumberTooWide` for a numeral (ECMA-262, sections 13.2 to 13.15).
    #[tactic(auto, unfolding(crate::specs::Rules::level))]
    pub fn level(&self, tokens: &mut Tokens<'_>, form: Form) -> Result<Expr, ParseError>
        requires { Nests (B.readers self.now.room) self.now.room (F.pre self.now.inside) (F.post self.now.inside) (G.pre self.now.block) (G.post self.now.block) }
        ensures { Reads (spec.level real self.now.room (B.readers self.now.room) form tokens.old) result tokens.new }
    {
        match form {
            Form::Operand => {
                let found = self.prefix(tokens)?;
                undivided(tokens, found)
            }
            Form::Whole => {
                let found = self.whole(tokens)?;
                undivided(tokens, found)
            }
            Form::Bracketed => self.whole(tokens),
        }
    }
}
