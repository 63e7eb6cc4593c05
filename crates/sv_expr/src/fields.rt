// Object literals.
ghost use Rattle.std.specs.Prelude.{◌≡◌, ℕ, List};
ghost use Rattle.sv_expr.specs.Below.{Nests};
ghost use Rattle.sv_expr.specs.Limits.{real};
ghost use Rattle.sv_expr.specs.Rules as spec;
ghost use Rattle.sv_lex.specs.Reader.{Reads};

use crate::below::Enclosed;
use crate::form::Form;
use crate::grammar::Grammar;
use crate::leaves::shorthand;
use crate::lists::listed;
use std::alloc::Global;
use sv_ast::{Expr, ExprKind, Field, ParseError, Stmts};
use sv_base::Text;
use sv_lex::{Lexeme, Tokens, first, past, same_lexeme};

impl<
    B: Enclosed,
    F: Fn(Global, &mut Tokens<'_>, usize, Form) -> Result<Expr, ParseError>,
    G: Fn(Global, &mut Tokens<'_>, usize) -> Result<Stmts, ParseError>,
> Grammar<B, F, G> {
    #[tactic(auto, unfolding(crate::specs::Rules::spread))]
    fn spread(&self, tokens: &mut Tokens<'_>) -> Result<Field, ParseError>
        requires { Nests (B.readers self.now.room) self.now.room (F.pre self.now.inside) (F.post self.now.inside) (G.pre self.now.block) (G.post self.now.block) }
        ensures { Reads (spec.spread real self.now.room (B.readers self.now.room) tokens.old) result tokens.new }
    {
        tokens.take();
        let value = self.enclosed(tokens, Form::Whole)?;
        Ok(Field::Spread(value))
    }

    // What stands behind a key.
    #[tactic(auto, unfolding(crate::specs::Rules::pair))]
    fn pair(&self, tokens: &mut Tokens<'_>, key: Text) -> Result<Field, ParseError>
        requires { Nests (B.readers self.now.room) self.now.room (F.pre self.now.inside) (F.post self.now.inside) (G.pre self.now.block) (G.post self.now.block) }
        ensures { Reads (spec.pair real self.now.room (B.readers self.now.room) key tokens.old) result tokens.new }
    {
        tokens.expect(Lexeme::Colon)?;
        let value = self.enclosed(tokens, Form::Whole)?;
        Ok(Field::Pair { key, value })
    }

    #[tactic(auto, unfolding(crate::specs::Rules::quoted_field))]
    fn quoted_field(&self, tokens: &mut Tokens<'_>) -> Result<Field, ParseError>
        requires { Nests (B.readers self.now.room) self.now.room (F.pre self.now.inside) (F.post self.now.inside) (G.pre self.now.block) (G.post self.now.block) }
        ensures { Reads (spec.quoted_field real self.now.room (B.readers self.now.room) tokens.old) result tokens.new }
    {
        let key = tokens.string()?;
        self.pair(tokens, key)
    }

    #[tactic(auto, unfolding(crate::specs::Rules::worded_field))]
    fn worded_field(&self, tokens: &mut Tokens<'_>) -> Result<Field, ParseError>
        requires { Nests (B.readers self.now.room) self.now.room (F.pre self.now.inside) (F.post self.now.inside) (G.pre self.now.block) (G.post self.now.block) }
        ensures { Reads (spec.worded_field real self.now.room (B.readers self.now.room) tokens.old) result tokens.new }
    {
        let key = tokens.word_text()?;
        tokens.take();
        self.pair(tokens, key)
    }

    #[tactic(auto, unfolding(crate::specs::Rules::named_field, sv_lex::specs::Reader::sees_one, sv_lex::specs::Reader::sees, sv_lex::specs::Reader::next))]
    fn named_field(&self, tokens: &mut Tokens<'_>) -> Result<Field, ParseError>
        requires { Nests (B.readers self.now.room) self.now.room (F.pre self.now.inside) (F.post self.now.inside) (G.pre self.now.block) (G.post self.now.block) }
        ensures { Reads (spec.named_field real self.now.room (B.readers self.now.room) tokens.old) result tokens.new }
    {
        if same_lexeme(first(past(tokens.text())), Lexeme::Colon) {
            self.worded_field(tokens)
        } else {
            shorthand(self.alloc, tokens)
        }
    }

    #[tactic(auto, unfolding(crate::specs::Rules::field))]
    fn field(&self, tokens: &mut Tokens<'_>) -> Result<Field, ParseError>
        requires { Nests (B.readers self.now.room) self.now.room (F.pre self.now.inside) (F.post self.now.inside) (G.pre self.now.block) (G.post self.now.block) }
        ensures { Reads (spec.field real self.now.room (B.readers self.now.room) tokens.old) result tokens.new }
    {
        match tokens.peek() {
            Lexeme::Dots => self.spread(tokens),
            Lexeme::Quoted => self.quoted_field(tokens),
            Lexeme::Name => self.named_field(tokens),
            _ => self.worded_field(tokens),
        }
    }

    #[tactic(auto, unfolding(crate::specs::Rules::object))]
    pub(crate) fn object(&self, tokens: &mut Tokens<'_>) -> Result<Expr, ParseError>
        requires { Nests (B.readers self.now.room) self.now.room (F.pre self.now.inside) (F.post self.now.inside) (G.pre self.now.block) (G.post self.now.block) }
        ensures { Reads (spec.object real self.now.room (B.readers self.now.room) tokens.old) result tokens.new }
    {
        let from = tokens.start();
        self.opened(tokens)?;
        tokens.take();
        let field = |tokens: &mut Tokens<'_>| -> Result<Field, ParseError>
            requires { Nests (B.readers self.now.room) self.now.room (F.pre self.now.inside) (F.post self.now.inside) (G.pre self.now.block) (G.post self.now.block) }
            ensures { Reads (spec.field real self.entry.now.room (B.readers self.entry.now.room) tokens.old) result tokens.new }
        { self.field(tokens) };
        let found = listed(self.alloc, tokens, Lexeme::RBrace, field)?;
        Ok(Expr::new(self.alloc, tokens.span_from(from), ExprKind::Obj(found))?)
    }
}
