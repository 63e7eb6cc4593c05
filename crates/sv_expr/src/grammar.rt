// The parameters of the rules, and what encloses expressions: brackets, lists and templates.
ghost use Rattle.std.specs.Prelude.{◌≡◌, OnOk};
ghost use Rattle.sv_expr.specs.Below.{Nests};
ghost use Rattle.sv_expr.specs.Limits.{real};
ghost use Rattle.sv_expr.specs.Nodes.{entry_of, with_run};
ghost use Rattle.sv_expr.specs.Rules as spec;
ghost use Rattle.sv_lex.specs.Reader.{Reads};

use crate::below::Enclosed;
use crate::form::Form;
use crate::leaves::{constant, number, quoted};
use crate::lists::listed;
use std::alloc::Global;
use std::marker::PhantomData;
use sv_ast::{Entry, Expr, ExprKind, Exprs, Kind, ParseError, Stmts};
use sv_base::NoMemory;
use sv_lex::{Lexeme, Run, Tokens};
use sv_list::Items;

/// The rules of expressions. Each reads from `tokens` what its line of the grammar says.
#[derive(Drop)]
pub struct Grammar<B, F, G> {
    pub alloc: Global,
    /// How many constructs may still enclose one another.
    pub room: usize,
    /// Reads an expression in a construct.
    pub inside: F,
    /// Reads the statements of a block, with its braces.
    pub block: G,
    pub of: PhantomData<B>,
}

impl<
    B: Enclosed,
    F: Fn(Global, &mut Tokens<'_>, usize, Form) -> Result<Expr, ParseError>,
    G: Fn(Global, &mut Tokens<'_>, usize) -> Result<Stmts, ParseError>,
> Grammar<B, F, G> {
    // An expression in a construct.
    pub(crate) fn enclosed(&self, tokens: &mut Tokens<'_>, form: Form) -> Result<Expr, ParseError>
        requires { Nests (B.readers self.now.room) self.now.room (F.pre self.now.inside) (F.post self.now.inside) (G.pre self.now.block) (G.post self.now.block) }
        ensures { Reads ((B.readers self.now.room).inside form tokens.old) result tokens.new }
    {
        (self.inside)(self.alloc, tokens, self.room, form)
    }

    // A construct may be opened, also one with nothing in it.
    #[tactic(auto, unfolding(crate::specs::Rules::opened))]
    pub(crate) fn opened(&self, tokens: &Tokens<'_>) -> Result<(), ParseError>
        ensures { Reads (spec.opened real self.now.room (B.readers self.now.room) tokens.now) result tokens.now }
    {
        if self.room >= 1 {
            Ok(())
        } else {
            Err(tokens.refuse(Kind::TooDeep))
        }
    }

    #[tactic(auto, unfolding(crate::specs::Rules::bracketed))]
    fn bracketed(&self, tokens: &mut Tokens<'_>) -> Result<Expr, ParseError>
        requires { Nests (B.readers self.now.room) self.now.room (F.pre self.now.inside) (F.post self.now.inside) (G.pre self.now.block) (G.post self.now.block) }
        ensures { Reads (spec.bracketed real self.now.room (B.readers self.now.room) tokens.old) result tokens.new }
    {
        tokens.take();
        let inner = self.enclosed(tokens, Form::Bracketed)?;
        tokens.expect(Lexeme::RParen)?;
        Ok(inner)
    }

    #[tactic(auto, unfolding(crate::specs::Rules::entry))]
    fn entry(&self, tokens: &mut Tokens<'_>) -> Result<Entry, ParseError>
        requires { Nests (B.readers self.now.room) self.now.room (F.pre self.now.inside) (F.post self.now.inside) (G.pre self.now.block) (G.post self.now.block) }
        ensures { Reads (spec.entry real self.now.room (B.readers self.now.room) tokens.old) result tokens.new }
    {
        let is_spread = tokens.eat(Lexeme::Dots);
        let value = self.enclosed(tokens, Form::Whole)?;
        Ok(entry_of(is_spread, value))
    }

    #[tactic(auto, unfolding(crate::specs::Rules::list))]
    fn list(&self, tokens: &mut Tokens<'_>) -> Result<Expr, ParseError>
        requires { Nests (B.readers self.now.room) self.now.room (F.pre self.now.inside) (F.post self.now.inside) (G.pre self.now.block) (G.post self.now.block) }
        ensures { Reads (spec.list real self.now.room (B.readers self.now.room) tokens.old) result tokens.new }
    {
        let from = tokens.start();
        self.opened(tokens)?;
        tokens.take();
        let entry = |tokens: &mut Tokens<'_>| -> Result<Entry, ParseError>
            requires { Nests (B.readers self.now.room) self.now.room (F.pre self.now.inside) (F.post self.now.inside) (G.pre self.now.block) (G.post self.now.block) }
            ensures { Reads (spec.entry real self.entry.now.room (B.readers self.entry.now.room) tokens.old) result tokens.new }
        { self.entry(tokens) };
        let found = listed(self.alloc, tokens, Lexeme::RBracket, entry)?;
        Ok(Expr::new(self.alloc, tokens.span_from(from), ExprKind::List(found))?)
    }

    fn parts(&self, tokens: &mut Tokens<'_>) -> Result<Exprs, ParseError>
        requires { Nests (B.readers self.now.room) self.now.room (F.pre self.now.inside) (F.post self.now.inside) (G.pre self.now.block) (G.post self.now.block) }
        ensures { Reads (spec.parts real self.now.room (B.readers self.now.room) tokens.old) result tokens.new }
    {
        let mut found = Items::new(self.alloc);
        for _turn in 0..tokens.left() {
            let (run, is_hole) = tokens.run()?;
            push_run(self.alloc, &mut found, run)?;
            if !is_hole {
                return Ok(found);
            }
            found.push(self.enclosed(tokens, Form::Whole)?)?;
            tokens.expect(Lexeme::RBrace)?;
        }
        Err(tokens.refuse(Kind::Syntax))
    }

    #[tactic(auto, unfolding(crate::specs::Rules::template))]
    fn template(&self, tokens: &mut Tokens<'_>) -> Result<Expr, ParseError>
        requires { Nests (B.readers self.now.room) self.now.room (F.pre self.now.inside) (F.post self.now.inside) (G.pre self.now.block) (G.post self.now.block) }
        ensures { Reads (spec.template real self.now.room (B.readers self.now.room) tokens.old) result tokens.new }
    {
        let from = tokens.start();
        tokens.take();
        let found = self.parts(tokens)?;
        let kind = ExprKind::Template(found);
        Ok(Expr::new(self.alloc, tokens.span_from(from), kind)?)
    }

    #[tactic(auto, unfolding(crate::specs::Rules::primary))]
    pub(crate) fn primary(&self, tokens: &mut Tokens<'_>) -> Result<Expr, ParseError>
        requires { Nests (B.readers self.now.room) self.now.room (F.pre self.now.inside) (F.post self.now.inside) (G.pre self.now.block) (G.post self.now.block) }
        ensures { Reads (spec.primary real self.now.room (B.readers self.now.room) tokens.old) result tokens.new }
    {
        match tokens.peek() {
            Lexeme::Numeral => number(self.alloc, tokens),
            Lexeme::Quoted => quoted(self.alloc, tokens),
            Lexeme::Backquote => self.template(tokens),
            Lexeme::LParen => self.bracketed(tokens),
            Lexeme::LBracket => self.list(tokens),
            Lexeme::LBrace => self.object(tokens),
            _ => constant(self.alloc, tokens),
        }
    }
}

// An item of a list, or the items of one.
fn entry_of(is_spread: bool, value: Expr) -> Entry
    ensures { result ≡ entry_of is_spread value }
{
    if is_spread {
        Entry::Spread(value)
    } else {
        Entry::One(value)
    }
}

// Puts a literal run of a template behind its parts, if it is not empty.
fn push_run(alloc: Global, parts: &mut Exprs, run: Run) -> Result<(), NoMemory>
    ensures { OnOk result (parts.new ≡ with_run run parts.old) }
{
    let Run { text, span } = run;
    if text.as_str().is_empty() {
        return Ok(());
    }
    parts.push(Expr::new(alloc, span, ExprKind::Text(text))?)
}
