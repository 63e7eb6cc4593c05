// `let`, `const` and functions.
ghost use Rattle.std.specs.Prelude.{◌≡◌};
ghost use Rattle.sv_expr.specs.Limits.{real};
ghost use Rattle.sv_lex.specs.Reader.{Reads};
ghost use Rattle.sv_script.specs.Below.{Holds};
ghost use Rattle.sv_script.specs.Nodes as nodes;
ghost use Rattle.sv_script.specs.Rules as spec;
ghost use Rattle.sv_script.specs.Script.{bodies};

use crate::lists::separated;
use crate::place::{FUNCTION, Place};
use crate::statements::Statements;
use std::alloc::Global;
use sv_ast::{Decl, Decls, Expr, Kind, NameList, Named, ParseError, Stmt, StmtKind, Stmts};
use sv_expr::{Form, parameters};
use sv_lex::{Lexeme, Tokens};

impl<
    F: Fn(Global, &mut Tokens<'_>, usize, Form) -> Result<Expr, ParseError>,
    G: Fn(Global, &mut Tokens<'_>, usize) -> Result<Stmts, ParseError>,
    H: Fn(Global, &mut Tokens<'_>, usize, Place) -> Result<Stmts, ParseError>,
    K: Fn(Global, &mut Tokens<'_>, usize, Place) -> Result<Stmt, ParseError>,
> Statements<F, G, H, K> {
    // What stands behind a declared name: a first value, or nothing.
    #[tactic(auto, unfolding(crate::specs::Rules::declared_as))]
    fn declared_as(
        &self,
        tokens: &mut Tokens<'_>,
        is_head: bool,
        name: Named,
    ) -> Result<Decl, ParseError>
        requires { Holds (bodies real self.now.exprs.room) self.now.exprs.room (F.pre self.now.exprs.inside) (F.post self.now.exprs.inside) (G.pre self.now.exprs.block) (G.post self.now.exprs.block) (H.pre self.now.block) (H.post self.now.block) (K.pre self.now.body) (K.post self.now.body) }
        ensures { Reads (spec.declared_as real self.now.exprs.room (bodies real self.now.exprs.room) is_head name tokens.old) result tokens.new }
    {
        if tokens.eat(Lexeme::Equal) {
            let first = Some(self.value(tokens, is_head)?);
            Ok(decl(name, first))
        } else {
            Ok(decl(name, None))
        }
    }

    #[tactic(auto, unfolding(crate::specs::Rules::declared))]
    fn declared(&self, tokens: &mut Tokens<'_>, is_head: bool) -> Result<Decl, ParseError>
        requires { Holds (bodies real self.now.exprs.room) self.now.exprs.room (F.pre self.now.exprs.inside) (F.post self.now.exprs.inside) (G.pre self.now.exprs.block) (G.post self.now.exprs.block) (H.pre self.now.block) (H.post self.now.block) (K.pre self.now.body) (K.post self.now.body) }
        ensures { Reads (spec.declared real self.now.exprs.room (bodies real self.now.exprs.room) is_head tokens.old) result tokens.new }
    {
        let name = tokens.name()?;
        self.declared_as(tokens, is_head, name)
    }

    #[tactic(auto, unfolding(crate::specs::Rules::fixed))]
    fn fixed(&self, tokens: &mut Tokens<'_>) -> Result<Decl, ParseError>
        requires { Holds (bodies real self.now.exprs.room) self.now.exprs.room (F.pre self.now.exprs.inside) (F.post self.now.exprs.inside) (G.pre self.now.exprs.block) (G.post self.now.exprs.block) (H.pre self.now.block) (H.post self.now.block) (K.pre self.now.body) (K.post self.now.body) }
        ensures { Reads (spec.fixed real self.now.exprs.room (bodies real self.now.exprs.room) tokens.old) result tokens.new }
    {
        let name = tokens.name()?;
        tokens.expect(Lexeme::Equal)?;
        let first = Some(self.value(tokens, false)?);
        Ok(decl(name, first))
    }

    // `let` and its names.
    #[tactic(auto, unfolding(crate::specs::Rules::variables))]
    pub(crate) fn variables(
        &self,
        tokens: &mut Tokens<'_>,
        is_head: bool,
    ) -> Result<Decls, ParseError>
        requires { Holds (bodies real self.now.exprs.room) self.now.exprs.room (F.pre self.now.exprs.inside) (F.post self.now.exprs.inside) (G.pre self.now.exprs.block) (G.post self.now.exprs.block) (H.pre self.now.block) (H.post self.now.block) (K.pre self.now.body) (K.post self.now.body) }
        ensures { Reads (spec.variables real self.now.exprs.room (bodies real self.now.exprs.room) is_head tokens.old) result tokens.new }
    {
        tokens.take();
        let declared = |tokens: &mut Tokens<'_>| -> Result<Decl, ParseError>
            requires { Holds (bodies real self.now.exprs.room) self.now.exprs.room (F.pre self.now.exprs.inside) (F.post self.now.exprs.inside) (G.pre self.now.exprs.block) (G.post self.now.exprs.block) (H.pre self.now.block) (H.post self.now.block) (K.pre self.now.body) (K.post self.now.body) }
            ensures { Reads (spec.declared real self.entry.now.exprs.room (bodies real self.entry.now.exprs.room) is_head tokens.old) result tokens.new }
        { self.declared(tokens, is_head) };
        separated(self.exprs.alloc, tokens, declared)
    }

    #[tactic(auto, unfolding(crate::specs::Rules::let_statement))]
    pub(crate) fn let_statement(&self, tokens: &mut Tokens<'_>) -> Result<Stmt, ParseError>
        requires { Holds (bodies real self.now.exprs.room) self.now.exprs.room (F.pre self.now.exprs.inside) (F.post self.now.exprs.inside) (G.pre self.now.exprs.block) (G.post self.now.exprs.block) (H.pre self.now.block) (H.post self.now.block) (K.pre self.now.body) (K.post self.now.body) }
        ensures { Reads (spec.let_statement real self.now.exprs.room (bodies real self.now.exprs.room) tokens.old) result tokens.new }
    {
        let from = tokens.start();
        let found = self.variables(tokens, false)?;
        tokens.ending()?;
        let kind = StmtKind::Let(found);
        Ok(Stmt::new(self.exprs.alloc, tokens.span_from(from), kind)?)
    }

    // `const` and its names, behind `export` or not.
    #[tactic(auto, unfolding(crate::specs::Rules::const_statement))]
    pub(crate) fn const_statement(
        &self,
        tokens: &mut Tokens<'_>,
        from: u32,
        exported: bool,
    ) -> Result<Stmt, ParseError>
        requires { Holds (bodies real self.now.exprs.room) self.now.exprs.room (F.pre self.now.exprs.inside) (F.post self.now.exprs.inside) (G.pre self.now.exprs.block) (G.post self.now.exprs.block) (H.pre self.now.block) (H.post self.now.block) (K.pre self.now.body) (K.post self.now.body) }
        ensures { Reads (spec.const_statement real self.now.exprs.room (bodies real self.now.exprs.room) from exported tokens.old) result tokens.new }
    {
        tokens.take();
        let fixed = |tokens: &mut Tokens<'_>| -> Result<Decl, ParseError>
            requires { Holds (bodies real self.now.exprs.room) self.now.exprs.room (F.pre self.now.exprs.inside) (F.post self.now.exprs.inside) (G.pre self.now.exprs.block) (G.post self.now.exprs.block) (H.pre self.now.block) (H.post self.now.block) (K.pre self.now.body) (K.post self.now.body) }
            ensures { Reads (spec.fixed real self.entry.now.exprs.room (bodies real self.entry.now.exprs.room) tokens.old) result tokens.new }
        { self.fixed(tokens) };
        let decls = separated(self.exprs.alloc, tokens, fixed)?;
        tokens.ending()?;
        let kind = StmtKind::Const { decls, exported };
        Ok(Stmt::new(self.exprs.alloc, tokens.span_from(from), kind)?)
    }

    #[tactic(auto, unfolding(crate::specs::Rules::params))]
    fn params(&self, tokens: &mut Tokens<'_>) -> Result<NameList, ParseError>
        requires { Holds (bodies real self.now.exprs.room) self.now.exprs.room (F.pre self.now.exprs.inside) (F.post self.now.exprs.inside) (G.pre self.now.exprs.block) (G.post self.now.exprs.block) (H.pre self.now.block) (H.post self.now.block) (K.pre self.now.body) (K.post self.now.body) }
        ensures { Reads (spec.params real self.now.exprs.room (bodies real self.now.exprs.room) tokens.old) result tokens.new }
    {
        if tokens.sees(Lexeme::LParen) {
            parameters(self.exprs.alloc, tokens)
        } else {
            Err(tokens.refuse(Kind::Syntax))
        }
    }

    // A function, behind `export` or not.
    #[tactic(auto, unfolding(crate::specs::Rules::func))]
    pub(crate) fn func(
        &self,
        tokens: &mut Tokens<'_>,
        from: u32,
        exported: bool,
    ) -> Result<Stmt, ParseError>
        requires { Holds (bodies real self.now.exprs.room) self.now.exprs.room (F.pre self.now.exprs.inside) (F.post self.now.exprs.inside) (G.pre self.now.exprs.block) (G.post self.now.exprs.block) (H.pre self.now.block) (H.post self.now.block) (K.pre self.now.body) (K.post self.now.body) }
        ensures { Reads (spec.func real self.now.exprs.room (bodies real self.now.exprs.room) from exported tokens.old) result tokens.new }
    {
        tokens.take();
        let name = tokens.name()?;
        let params = self.params(tokens)?;
        let body = self.block(tokens, FUNCTION)?;
        let kind = StmtKind::Func {
            name,
            exported,
            params,
            body,
        };
        Ok(Stmt::new(self.exprs.alloc, tokens.span_from(from), kind)?)
    }
}

// A declared name.
fn decl(name: Named, first: Option<Expr>) -> Decl
    ensures { result ≡ nodes.decl name first }
{
    Decl { name, first }
}
