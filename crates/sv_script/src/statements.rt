// The parameters of the rules, and the statements by their first token.
ghost use Rattle.std.specs.Prelude.{◌≡◌};
ghost use Rattle.sv_expr.specs.Limits.{real};
ghost use Rattle.sv_lex.specs.Reader.{Reads};
ghost use Rattle.sv_script.specs.Below.{Holds};
ghost use Rattle.sv_script.specs.Rules as spec;
ghost use Rattle.sv_script.specs.Script.{bodies};

use crate::leaves::{break_statement, continue_statement, empty, stops};
use crate::lists::upto;
use crate::place::Place;
use std::alloc::Global;
use sv_ast::{Expr, Kind, ParseError, Stmt, StmtKind, Stmts};
use sv_expr::{Enclosed, Form, Grammar};
use sv_lex::{Lexeme, Tokens};

/// The expressions that stand in statements, and the statements in those.
pub struct Scripted;

impl Enclosed for Scripted {
    ghost use Rattle.sv_expr.specs.Limits.{real};
    ghost use Rattle.sv_script.specs.Script.{bodies};

    ghost readers = { λ room. (bodies real room).exprs };
}

/// The rules of statements. Each reads from `tokens` what its line of the grammar says.
#[derive(Drop)]
pub struct Statements<F, G, H, K> {
    /// The rules of expressions, with the room for constructs.
    pub exprs: Grammar<Scripted, F, G>,
    /// Reads the statements of a block, with its braces.
    pub block: H,
    /// Reads the body of `if`, `else` or a loop.
    pub body: K,
}

impl<
    F: Fn(Global, &mut Tokens<'_>, usize, Form) -> Result<Expr, ParseError>,
    G: Fn(Global, &mut Tokens<'_>, usize) -> Result<Stmts, ParseError>,
    H: Fn(Global, &mut Tokens<'_>, usize, Place) -> Result<Stmts, ParseError>,
    K: Fn(Global, &mut Tokens<'_>, usize, Place) -> Result<Stmt, ParseError>,
> Statements<F, G, H, K> {
    // An expression in a construct.
    pub(crate) fn enclosed(&self, tokens: &mut Tokens<'_>) -> Result<Expr, ParseError>
        requires { Holds (bodies real self.now.exprs.room) self.now.exprs.room (F.pre self.now.exprs.inside) (F.post self.now.exprs.inside) (G.pre self.now.exprs.block) (G.post self.now.exprs.block) (H.pre self.now.block) (H.post self.now.block) (K.pre self.now.body) (K.post self.now.body) }
        ensures { Reads ((bodies real self.now.exprs.room).exprs.inside Form.Whole tokens.old) result tokens.new }
    {
        (self.exprs.inside)(self.exprs.alloc, tokens, self.exprs.room, Form::Whole)
    }

    // A block.
    pub(crate) fn block(&self, tokens: &mut Tokens<'_>, place: Place) -> Result<Stmts, ParseError>
        requires { Holds (bodies real self.now.exprs.room) self.now.exprs.room (F.pre self.now.exprs.inside) (F.post self.now.exprs.inside) (G.pre self.now.exprs.block) (G.post self.now.exprs.block) (H.pre self.now.block) (H.post self.now.block) (K.pre self.now.body) (K.post self.now.body) }
        ensures { Reads ((bodies real self.now.exprs.room).block place tokens.old) result tokens.new }
    {
        (self.block)(self.exprs.alloc, tokens, self.exprs.room, place)
    }

    // The body of `if`, `else` or a loop.
    pub(crate) fn body(&self, tokens: &mut Tokens<'_>, place: Place) -> Result<Stmt, ParseError>
        requires { Holds (bodies real self.now.exprs.room) self.now.exprs.room (F.pre self.now.exprs.inside) (F.post self.now.exprs.inside) (G.pre self.now.exprs.block) (G.post self.now.exprs.block) (H.pre self.now.block) (H.post self.now.block) (K.pre self.now.body) (K.post self.now.body) }
        ensures { Reads ((bodies real self.now.exprs.room).body place tokens.old) result tokens.new }
    {
        (self.body)(self.exprs.alloc, tokens, self.exprs.room, place)
    }

    // An expression, in the brackets of a head or not.
    #[tactic(auto, unfolding(crate::specs::Rules::value))]
    pub(crate) fn value(&self, tokens: &mut Tokens<'_>, is_head: bool) -> Result<Expr, ParseError>
        requires { Holds (bodies real self.now.exprs.room) self.now.exprs.room (F.pre self.now.exprs.inside) (F.post self.now.exprs.inside) (G.pre self.now.exprs.block) (G.post self.now.exprs.block) (H.pre self.now.block) (H.post self.now.block) (K.pre self.now.body) (K.post self.now.body) }
        ensures { Reads (spec.value real self.now.exprs.room (bodies real self.now.exprs.room) is_head tokens.old) result tokens.new }
    {
        if is_head {
            self.enclosed(tokens)
        } else {
            self.exprs.level(tokens, Form::Whole)
        }
    }

    #[tactic(auto, unfolding(crate::specs::Rules::nested))]
    fn nested(&self, tokens: &mut Tokens<'_>, place: Place) -> Result<Stmt, ParseError>
        requires { Holds (bodies real self.now.exprs.room) self.now.exprs.room (F.pre self.now.exprs.inside) (F.post self.now.exprs.inside) (G.pre self.now.exprs.block) (G.post self.now.exprs.block) (H.pre self.now.block) (H.post self.now.block) (K.pre self.now.body) (K.post self.now.body) }
        ensures { Reads (spec.nested real self.now.exprs.room (bodies real self.now.exprs.room) place tokens.old) result tokens.new }
    {
        let from = tokens.start();
        let found = self.block(tokens, place)?;
        let kind = StmtKind::Block(found);
        Ok(Stmt::new(self.exprs.alloc, tokens.span_from(from), kind)?)
    }

    // The expression on the line of a `return`.
    #[tactic(auto, unfolding(crate::specs::Rules::answer))]
    fn answer(&self, tokens: &mut Tokens<'_>) -> Result<Option<Expr>, ParseError>
        requires { Holds (bodies real self.now.exprs.room) self.now.exprs.room (F.pre self.now.exprs.inside) (F.post self.now.exprs.inside) (G.pre self.now.exprs.block) (G.post self.now.exprs.block) (H.pre self.now.block) (H.post self.now.block) (K.pre self.now.body) (K.post self.now.body) }
        ensures { Reads (spec.answer real self.now.exprs.room (bodies real self.now.exprs.room) tokens.old) result tokens.new }
    {
        if stops(tokens) {
            Ok(None)
        } else {
            Ok(Some(self.value(tokens, false)?))
        }
    }

    #[tactic(auto, unfolding(crate::specs::Rules::return_statement))]
    fn return_statement(&self, tokens: &mut Tokens<'_>, place: Place) -> Result<Stmt, ParseError>
        requires { Holds (bodies real self.now.exprs.room) self.now.exprs.room (F.pre self.now.exprs.inside) (F.post self.now.exprs.inside) (G.pre self.now.exprs.block) (G.post self.now.exprs.block) (H.pre self.now.block) (H.post self.now.block) (K.pre self.now.body) (K.post self.now.body) }
        ensures { Reads (spec.return_statement real self.now.exprs.room (bodies real self.now.exprs.room) place tokens.old) result tokens.new }
    {
        if !place.in_function {
            return Err(tokens.refuse(Kind::Syntax));
        }
        let from = tokens.start();
        tokens.take();
        let value = self.answer(tokens)?;
        tokens.ending()?;
        let kind = StmtKind::Return(value);
        Ok(Stmt::new(self.exprs.alloc, tokens.span_from(from), kind)?)
    }

    #[tactic(auto, unfolding(crate::specs::Rules::evaluated))]
    fn evaluated(&self, tokens: &mut Tokens<'_>) -> Result<Stmt, ParseError>
        requires { Holds (bodies real self.now.exprs.room) self.now.exprs.room (F.pre self.now.exprs.inside) (F.post self.now.exprs.inside) (G.pre self.now.exprs.block) (G.post self.now.exprs.block) (H.pre self.now.block) (H.post self.now.block) (K.pre self.now.body) (K.post self.now.body) }
        ensures { Reads (spec.evaluated real self.now.exprs.room (bodies real self.now.exprs.room) tokens.old) result tokens.new }
    {
        let from = tokens.start();
        let value = self.value(tokens, false)?;
        tokens.ending()?;
        let kind = StmtKind::Eval(value);
        Ok(Stmt::new(self.exprs.alloc, tokens.span_from(from), kind)?)
    }

    // A statement that may be the body of another.
    #[tactic(auto, unfolding(crate::specs::Rules::statement))]
    pub(crate) fn statement(
        &self,
        tokens: &mut Tokens<'_>,
        place: Place,
    ) -> Result<Stmt, ParseError>
        requires { Holds (bodies real self.now.exprs.room) self.now.exprs.room (F.pre self.now.exprs.inside) (F.post self.now.exprs.inside) (G.pre self.now.exprs.block) (G.post self.now.exprs.block) (H.pre self.now.block) (H.post self.now.block) (K.pre self.now.body) (K.post self.now.body) }
        ensures { Reads (spec.statement real self.now.exprs.room (bodies real self.now.exprs.room) place tokens.old) result tokens.new }
    {
        match tokens.peek() {
            Lexeme::Semi => empty(self.exprs.alloc, tokens),
            Lexeme::LBrace => self.nested(tokens, place),
            Lexeme::If => self.if_statement(tokens, place),
            Lexeme::While => self.while_statement(tokens, place),
            Lexeme::For => self.for_statement(tokens, place),
            Lexeme::Break => break_statement(self.exprs.alloc, tokens, place),
            Lexeme::Continue => continue_statement(self.exprs.alloc, tokens, place),
            Lexeme::Return => self.return_statement(tokens, place),
            _ => self.evaluated(tokens),
        }
    }

    // A statement directly in a block.
    #[tactic(auto, unfolding(crate::specs::Rules::item))]
    pub(crate) fn item(&self, tokens: &mut Tokens<'_>, place: Place) -> Result<Stmt, ParseError>
        requires { Holds (bodies real self.now.exprs.room) self.now.exprs.room (F.pre self.now.exprs.inside) (F.post self.now.exprs.inside) (G.pre self.now.exprs.block) (G.post self.now.exprs.block) (H.pre self.now.block) (H.post self.now.block) (K.pre self.now.body) (K.post self.now.body) }
        ensures { Reads (spec.item real self.now.exprs.room (bodies real self.now.exprs.room) place tokens.old) result tokens.new }
    {
        match tokens.peek() {
            Lexeme::Let => self.let_statement(tokens),
            Lexeme::Const => {
                let from = tokens.start();
                self.const_statement(tokens, from, false)
            }
            _ => self.statement(tokens, place),
        }
    }

    // Statements in braces.
    #[tactic(auto, unfolding(crate::specs::Rules::braced))]
    pub(crate) fn braced(&self, tokens: &mut Tokens<'_>, place: Place) -> Result<Stmts, ParseError>
        requires { Holds (bodies real self.now.exprs.room) self.now.exprs.room (F.pre self.now.exprs.inside) (F.post self.now.exprs.inside) (G.pre self.now.exprs.block) (G.post self.now.exprs.block) (H.pre self.now.block) (H.post self.now.block) (K.pre self.now.body) (K.post self.now.body) }
        ensures { Reads (spec.braced real self.now.exprs.room (bodies real self.now.exprs.room) place tokens.old) result tokens.new }
    {
        tokens.expect(Lexeme::LBrace)?;
        let item = |tokens: &mut Tokens<'_>| -> Result<Stmt, ParseError>
            requires { Holds (bodies real self.now.exprs.room) self.now.exprs.room (F.pre self.now.exprs.inside) (F.post self.now.exprs.inside) (G.pre self.now.exprs.block) (G.post self.now.exprs.block) (H.pre self.now.block) (H.post self.now.block) (K.pre self.now.body) (K.post self.now.body) }
            ensures { Reads (spec.item real self.entry.now.exprs.room (bodies real self.entry.now.exprs.room) place tokens.old) result tokens.new }
        { self.item(tokens, place) };
        let found = upto(self.exprs.alloc, tokens, Lexeme::RBrace, item)?;
        tokens.take();
        Ok(found)
    }
}
