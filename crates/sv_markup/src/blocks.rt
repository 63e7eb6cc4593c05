// If, each and key blocks.
ghost use Rattle.std.specs.Prelude.{◌≡◌, ◌≤◌, [], length};
ghost use Rattle.sv_expr.specs.Limits.{real};
ghost use Rattle.sv_lex.specs.Reader.{Reads};
ghost use Rattle.sv_markup.specs.Below.{Nests};
ghost use Rattle.sv_markup.specs.Rules as spec;
ghost use Rattle.sv_markup.specs.Rules.{inside};

use crate::ends::else_if_len;
use crate::heads::{Head, Row, begun, each_head, headed};
use crate::leaves::block_end;
use crate::rules::Rules;
use std::alloc::Global;
use sv_ast::{Branch, Branches, Kind, Markup, Nodes, ParseError};
use sv_base::LINK_LIMIT;
use sv_lex::Source;
use sv_list::Items;

impl<F: Fn(Global, &mut Source<'_>, usize, bool) -> Result<Nodes, ParseError>> Rules<F> {
    // A branch whose condition stands behind so many bytes.
    #[tactic(auto, unfolding(crate::specs::Rules::branch_of))]
    fn branch_of(&self, source: &mut Source<'_>, len: usize) -> Result<Branch, ParseError>
        requires nests { Nests self.now.room (F.pre self.now.inside) (F.post self.now.inside) }
        requires front { len ≤ length source.old.text }
        requires room { 2 ≤ self.now.room }
        ensures { Reads (spec.branch_of real self.now.room (inside real self.now.room) len source.old) result source.new }
    {
        let test = headed(self.alloc, source, self.room, len)?;
        let body = self.enclosed(source, false)?;
        Ok(Branch { test, body })
    }

    // The branches with conditions.
    fn branches(&self, source: &mut Source<'_>, most: usize) -> Result<Branches, ParseError>
        requires nests { Nests self.now.room (F.pre self.now.inside) (F.post self.now.inside) }
        requires front { 4 ≤ length source.old.text }
        requires room { 2 ≤ self.now.room }
        ensures { Reads (spec.branches real self.now.room (inside real self.now.room) most 4 [] source.old) result source.new }
    {
        let mut found = Items::new(self.alloc);
        let mut len = 4;
        for _turn in 0..most {
            found.push(self.branch_of(source, len)?)?;
            len = else_if_len(source.text());
            if len == 0 {
                return Ok(found);
            }
        }
        Err(source.stop(Kind::TooDeep))
    }

    // `{:else}` and its nodes.
    #[tactic(auto, unfolding(crate::specs::Rules::otherwise))]
    fn otherwise(&self, source: &mut Source<'_>) -> Result<Option<Nodes>, ParseError>
        requires nests { Nests self.now.room (F.pre self.now.inside) (F.post self.now.inside) }
        requires room { 1 ≤ self.now.room }
        ensures { Reads (spec.otherwise real self.now.room (inside real self.now.room) source.old) result source.new }
    {
        if !source.text().starts_with(b"{:else}") {
            return Ok(None);
        }
        source.pass(7);
        Ok(Some(self.enclosed(source, false)?))
    }

    /// `{#if ..}`.
    #[tactic(auto, unfolding(crate::specs::Rules::if_block))]
    pub(crate) fn if_block(&self, source: &mut Source<'_>) -> Result<Markup, ParseError>
        requires nests { Nests self.now.room (F.pre self.now.inside) (F.post self.now.inside) }
        requires front { 4 ≤ length source.old.text }
        ensures { Reads (spec.if_block real self.now.room (inside real self.now.room) source.old) result source.new }
    {
        let from = source.at();
        begun(source, self.room)?;
        let arms = self.branches(source, LINK_LIMIT)?;
        let last = self.otherwise(source)?;
        block_end(source, from, "{/if}")?;
        Ok(Markup::If {
            span: source.span_from(from),
            arms,
            last,
        })
    }

    /// `{#each ..}`.
    #[tactic(auto, unfolding(crate::specs::Rules::each_block))]
    pub(crate) fn each_block(&self, source: &mut Source<'_>) -> Result<Markup, ParseError>
        requires nests { Nests self.now.room (F.pre self.now.inside) (F.post self.now.inside) }
        requires front { 6 ≤ length source.old.text }
        ensures { Reads (spec.each_block real self.now.room (inside real self.now.room) source.old) result source.new }
    {
        let from = source.at();
        begun(source, self.room)?;
        let head = each_head(self.alloc, source, self.room)?;
        let body = self.enclosed(source, false)?;
        let none = self.otherwise(source)?;
        block_end(source, from, "{/each}")?;
        let Head { list, row } = head;
        let Row { item, index, key } = row;
        Ok(Markup::Each {
            span: source.span_from(from),
            list,
            item,
            index,
            key,
            body,
            none,
        })
    }

    /// `{#key ..}`.
    #[tactic(auto, unfolding(crate::specs::Rules::key_block))]
    pub(crate) fn key_block(&self, source: &mut Source<'_>) -> Result<Markup, ParseError>
        requires nests { Nests self.now.room (F.pre self.now.inside) (F.post self.now.inside) }
        requires front { 5 ≤ length source.old.text }
        ensures { Reads (spec.key_block real self.now.room (inside real self.now.room) source.old) result source.new }
    {
        let from = source.at();
        begun(source, self.room)?;
        let value = headed(self.alloc, source, self.room, 5)?;
        let body = self.enclosed(source, false)?;
        block_end(source, from, "{/key}")?;
        Ok(Markup::Key {
            span: source.span_from(from),
            value,
            body,
        })
    }
}
