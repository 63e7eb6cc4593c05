// What stands at the top of a file.
ghost use Rattle.sv_expr.specs.Limits.{real};
ghost use Rattle.sv_lex.specs.Reader.{Reads};
ghost use Rattle.sv_script.specs.Below.{Holds};
ghost use Rattle.sv_script.specs.Script as spec;
ghost use Rattle.sv_script.specs.Script.{bodies};

use crate::imports::import_statement;
use crate::place::{Place, TOP};
use crate::statements::Statements;
use std::alloc::Global;
use sv_ast::{Expr, Kind, ParseError, Stmt, StmtKind, Stmts};
use sv_expr::Form;
use sv_lex::{Lexeme, Tokens};

impl<
    F: Fn(Global, &mut Tokens<'_>, usize, Form) -> Result<Expr, ParseError>,
    G: Fn(Global, &mut Tokens<'_>, usize) -> Result<Stmts, ParseError>,
    H: Fn(Global, &mut Tokens<'_>, usize, Place) -> Result<Stmts, ParseError>,
    K: Fn(Global, &mut Tokens<'_>, usize, Place) -> Result<Stmt, ParseError>,
> Statements<F, G, H, K> {
    #[tactic(auto, unfolding(crate::specs::Script::export_let))]
    fn export_let(&self, tokens: &mut Tokens<'_>) -> Result<Stmt, ParseError>
        requires { Holds (bodies real self.now.exprs.room) self.now.exprs.room (F.pre self.now.exprs.inside) (F.post self.now.exprs.inside) (G.pre self.now.exprs.block) (G.post self.now.exprs.block) (H.pre self.now.block) (H.post self.now.block) (K.pre self.now.body) (K.post self.now.body) }
        ensures { Reads (spec.export_let real self.now.exprs.room (bodies real self.now.exprs.room) tokens.old) result tokens.new }
    {
        let from = tokens.start();
        tokens.take();
        if !tokens.sees(Lexeme::Let) {
            return Err(tokens.refuse(Kind::Syntax));
        }
        let found = self.variables(tokens, false)?;
        tokens.ending()?;
        let kind = StmtKind::Export(found);
        Ok(Stmt::new(self.exprs.alloc, tokens.span_from(from), kind)?)
    }

    #[tactic(auto, unfolding(crate::specs::Script::reaction))]
    fn reaction(&self, tokens: &mut Tokens<'_>) -> Result<Stmt, ParseError>
        requires { Holds (bodies real self.now.exprs.room) self.now.exprs.room (F.pre self.now.exprs.inside) (F.post self.now.exprs.inside) (G.pre self.now.exprs.block) (G.post self.now.exprs.block) (H.pre self.now.block) (H.post self.now.block) (K.pre self.now.body) (K.post self.now.body) }
        ensures { Reads (spec.reaction real self.now.exprs.room (bodies real self.now.exprs.room) tokens.old) result tokens.new }
    {
        let from = tokens.start();
        tokens.take();
        let inner = self.statement(tokens, TOP)?;
        let kind = StmtKind::React(inner);
        Ok(Stmt::new(self.exprs.alloc, tokens.span_from(from), kind)?)
    }

    // An item of a component's script.
    #[tactic(auto, unfolding(crate::specs::Script::component_item))]
    pub(crate) fn component_item(&self, tokens: &mut Tokens<'_>) -> Result<Stmt, ParseError>
        requires { Holds (bodies real self.now.exprs.room) self.now.exprs.room (F.pre self.now.exprs.inside) (F.post self.now.exprs.inside) (G.pre self.now.exprs.block) (G.post self.now.exprs.block) (H.pre self.now.block) (H.post self.now.block) (K.pre self.now.body) (K.post self.now.body) }
        ensures { Reads (spec.component_item real self.now.exprs.room (bodies real self.now.exprs.room) tokens.old) result tokens.new }
    {
        match tokens.peek() {
            Lexeme::Import => import_statement(self.exprs.alloc, tokens),
            Lexeme::Export => self.export_let(tokens),
            Lexeme::React => self.reaction(tokens),
            Lexeme::Function => {
                let from = tokens.start();
                self.func(tokens, from, false)
            }
            _ => self.item(tokens, TOP),
        }
    }

    #[tactic(auto, unfolding(crate::specs::Script::exported))]
    fn exported(&self, tokens: &mut Tokens<'_>) -> Result<Stmt, ParseError>
        requires { Holds (bodies real self.now.exprs.room) self.now.exprs.room (F.pre self.now.exprs.inside) (F.post self.now.exprs.inside) (G.pre self.now.exprs.block) (G.post self.now.exprs.block) (H.pre self.now.block) (H.post self.now.block) (K.pre self.now.body) (K.post self.now.body) }
        ensures { Reads (spec.exported real self.now.exprs.room (bodies real self.now.exprs.room) tokens.old) result tokens.new }
    {
        let from = tokens.start();
        tokens.take();
        match tokens.peek() {
            Lexeme::Const => self.const_statement(tokens, from, true),
            Lexeme::Function => self.func(tokens, from, true),
            _ => Err(tokens.refuse(Kind::Syntax)),
        }
    }

    // An item of a module.
    #[tactic(auto, unfolding(crate::specs::Script::module_item))]
    pub(crate) fn module_item(&self, tokens: &mut Tokens<'_>) -> Result<Stmt, ParseError>
        requires { Holds (bodies real self.now.exprs.room) self.now.exprs.room (F.pre self.now.exprs.inside) (F.post self.now.exprs.inside) (G.pre self.now.exprs.block) (G.post self.now.exprs.block) (H.pre self.now.block) (H.post self.now.block) (K.pre self.now.body) (K.post self.now.body) }
        ensures { Reads (spec.module_item real self.now.exprs.room (bodies real self.now.exprs.room) tokens.old) result tokens.new }
    {
        let from = tokens.start();
        match tokens.peek() {
            Lexeme::Import => import_statement(self.exprs.alloc, tokens),
            Lexeme::Export => self.exported(tokens),
            Lexeme::Const => self.const_statement(tokens, from, false),
            Lexeme::Function => self.func(tokens, from, false),
            _ => Err(tokens.refuse(Kind::Syntax)),
        }
    }
}
