// The walk through markup.
ghost use Rattle.std.specs.Prelude.{◌≡◌, [], Some, length, map, true, All};
ghost use Rattle.sv_code.specs.declared.fragments.Frag.TheVariants as frag;
ghost use Rattle.sv_names.specs.Locals.{names_of};
ghost use Rattle.sv_fragments.specs.Around.{seen};
ghost use Rattle.sv_fragments.specs.Content as content_spec;
ghost use Rattle.sv_fragments.specs.Frags as spec;
ghost use Rattle.sv_lower.specs.Does.{Makes, each, of_one};
ghost use Rattle.sv_fragments.specs.Pieces.{made, made_of, IsNumber};

use crate::around::{Around, Tables};
use crate::parts::part;
use crate::pieces::{Node, kept_nodes};
use crate::rows::{Listed, Row, each_of, make_head, row_of};
use crate::tags::{Form, Opening, make_tag};
use sv_ast::{Branch, Markup};
use sv_base::NoMemory;
use sv_code::{Frag, FragArm, FragArms, Frags};
use sv_names::{Distinct, LocalScope};
use sv_scopes::row_names;
use sv_white::Piece;

/// The scopes of content: what goes to a slot with a name is outside those of its default part.
#[derive(Clone, Copy)]
pub(crate) struct ContentScope<'a> {
    pub outer: &'a LocalScope<'a>,
    pub names: &'a Distinct,
}

/// The fragments of the markup of a component. Functions and arrows in it, component tags and handlers are put behind those that there are:
/// handlers in the order of the text, and a tag where its content ends. `NoMemory` comes where memory runs out, of a number below 2^32 for one of
/// them, or of one below 2^16 for a file; some may have been added then.
///
/// - White space is taken at the two ends of the content of the file, of a branch of a block, of a component's tag and of a `<slot>`; texts
///   beside one another are one text. These rules are this project's own.
/// - Each expression is a part, which looks at the names that stand free in it, and the list of an each block also at those of its key, but
///   for the names of the row. A directive without an expression is the part of the name that it has; `on:` passes the event on then.
/// - What a component's tag holds for a slot with a name is kept apart (Svelte 4 docs, '`<slot name="name">`'), and the tag knows what its
///   content looks at. A tag whose name stands for no file is one of the first file.
pub fn fragments_of(
    tables: &mut Tables,
    around: &Around<'_>,
    nodes: &[Markup],
) -> Result<Frags, NoMemory>
    ensures { Makes result (spec.fragments nodes.now (seen around.now) [] tables.old) tables.new }
{
    make_nodes(tables, around, &LocalScope::Outside, nodes, true)
}

/// Content in which no names are.
#[cycle(walk)]
fn make_nodes(
    tables: &mut Tables,
    around: &Around<'_>,
    locals: &LocalScope<'_>,
    nodes: &[Markup],
    strips: bool,
) -> Result<Frags, NoMemory>
    ensures { Makes result (content_spec.nodes strips (map spec.node nodes.now) (seen around.now) (names_of locals.now) tables.old) tables.new }
{
    let names = Distinct::new(around.alloc);
    let scope = ContentScope {
        outer: &*locals,
        names: &names,
    };
    make_content(tables, around, &scope, nodes, strips)
}

/// Content, in whose default part some names are.
#[cycle(walk)]
#[tactic(auto, unfolding(crate::specs::Content::content))]
pub(crate) fn make_content(
    tables: &mut Tables,
    around: &Around<'_>,
    scope: &ContentScope<'_>,
    nodes: &[Markup],
    strips: bool,
) -> Result<Frags, NoMemory>
    ensures { Makes result (content_spec.content strips scope.now.names.now (map spec.node nodes.now) (seen around.now) (names_of scope.now.outer.now) tables.old) tables.new }
{
    let kept = kept_nodes(around.alloc, nodes, strips)?;
    make_kept(tables, around, scope, nodes, &kept)
}

// What was kept of some nodes.
#[cycle(walk)]
fn make_kept(
    tables: &mut Tables,
    around: &Around<'_>,
    scope: &ContentScope<'_>,
    nodes: &[Markup],
    kept: &[Node],
) -> Result<Frags, NoMemory>
    requires { All (IsNumber (length nodes.now)) kept.now }
    ensures { Makes result (each (map (content_spec.piece scope.now.names.now) (map (made nodes.now) kept.now)) (seen around.now) (names_of scope.now.outer.now) tables.old) tables.new }
{
    let mut fragments = Frags::new(around.alloc);
    for piece in kept {
        fragments.push(make_piece(tables, around, scope, nodes, piece)?)?;
    }
    Ok(fragments)
}

#[cycle(walk)]
fn make_piece(
    tables: &mut Tables,
    around: &Around<'_>,
    scope: &ContentScope<'_>,
    nodes: &[Markup],
    piece: &Node,
) -> Result<Frag, NoMemory>
    requires { IsNumber (length nodes.now) piece.now }
    ensures { Makes result (content_spec.piece scope.now.names.now (made nodes.now piece.now) (seen around.now) (names_of scope.now.outer.now) tables.old) tables.new }
{
    match piece {
        Piece::Words(text) => Ok(Frag::Text(text.share()?)),
        Piece::Apart(n) => make_node(tables, around, scope.outer, &nodes[*n]),
        Piece::Other(n) => {
            let inside = LocalScope::inside(&*scope.outer, scope.names);
            make_node(tables, around, &inside, &nodes[*n])
        }
    }
}

// What is made of a node where it stands.
#[cycle(walk)]
fn make_node(
    tables: &mut Tables,
    around: &Around<'_>,
    locals: &LocalScope<'_>,
    node: &Markup,
) -> Result<Frag, NoMemory>
    ensures { Makes result (made_of (spec.node node.now) (seen around.now) (names_of locals.now) tables.old) tables.new }
{
    match node {
        Markup::Text { text, .. } => Ok(Frag::Text(text.share()?)),
        Markup::Show { value, .. } => Ok(Frag::Show(part(tables, around, locals, value)?)),
        Markup::Element {
            span,
            name,
            attrs,
            children,
        } => {
            let opening = Opening {
                form: Form::Element(name),
                span: *span,
                attrs: attrs.as_slice(),
            };
            make_tag(tables, around, locals, &opening, children.as_slice())
        }
        Markup::Comp {
            span,
            name,
            attrs,
            children,
        } => {
            let opening = Opening {
                form: Form::Component(*name),
                span: *span,
                attrs: attrs.as_slice(),
            };
            make_tag(tables, around, locals, &opening, children.as_slice())
        }
        Markup::Slot {
            span,
            name,
            attrs,
            children,
        } => {
            let opening = Opening {
                form: Form::Slot(name),
                span: *span,
                attrs: attrs.as_slice(),
            };
            make_tag(tables, around, locals, &opening, children.as_slice())
        }
        Markup::If { arms, last, .. } => {
            let arms = make_arms(tables, around, locals, arms.as_slice())?;
            match last {
                Some(last) => make_else(tables, around, locals, last.as_slice(), arms),
                None => Ok(Frag::If { arms, last: None }),
            }
        }
        Markup::Each {
            list,
            item,
            index,
            key,
            body,
            none,
            ..
        } => {
            let of = Listed {
                list,
                item,
                index,
                key,
            };
            let row = make_row(tables, around, locals, &of, body.as_slice())?;
            match none {
                Some(none) => make_none(tables, around, locals, none.as_slice(), row),
                None => Ok(each_of(row, None)),
            }
        }
        Markup::Key { value, body, .. } => {
            let value = part(tables, around, locals, value)?;
            let body = make_nodes(tables, around, locals, body.as_slice(), true)?;
            Ok(Frag::Key { value, body })
        }
    }
}

// An if block with these branches, and what its last `{:else}` holds.
#[cycle(walk)]
fn make_else(
    tables: &mut Tables,
    around: &Around<'_>,
    locals: &LocalScope<'_>,
    last: &[Markup],
    arms: FragArms,
) -> Result<Frag, NoMemory>
    ensures { Makes result (of_one (λ made. frag.If arms (Some made)) (content_spec.nodes true (map spec.node last.now)) (seen around.now) (names_of locals.now) tables.old) tables.new }
{
    let last = Some(make_nodes(tables, around, locals, last, true)?);
    Ok(Frag::If { arms, last })
}

// An each block with this row, and what shows for an empty list.
#[cycle(walk)]
fn make_none(
    tables: &mut Tables,
    around: &Around<'_>,
    locals: &LocalScope<'_>,
    none: &[Markup],
    row: Row,
) -> Result<Frag, NoMemory>
    ensures { Makes result (of_one (λ made. spec.with_none row (Some made)) (content_spec.nodes true (map spec.node none.now)) (seen around.now) (names_of locals.now) tables.old) tables.new }
{
    let none = make_nodes(tables, around, locals, none, true)?;
    Ok(each_of(row, Some(none)))
}

#[cycle(walk)]
fn make_arms(
    tables: &mut Tables,
    around: &Around<'_>,
    locals: &LocalScope<'_>,
    list: &[Branch],
) -> Result<FragArms, NoMemory>
    ensures { Makes result (each (map spec.arm list.now) (seen around.now) (names_of locals.now) tables.old) tables.new }
{
    let mut arms = FragArms::new(around.alloc);
    for of in list {
        arms.push(make_arm(tables, around, locals, of)?)?;
    }
    Ok(arms)
}

#[cycle(walk)]
fn make_arm(
    tables: &mut Tables,
    around: &Around<'_>,
    locals: &LocalScope<'_>,
    of: &Branch,
) -> Result<FragArm, NoMemory>
    ensures { Makes result (spec.arm of.now (seen around.now) (names_of locals.now) tables.old) tables.new }
{
    let test = part(tables, around, locals, &of.test)?;
    let body = make_nodes(tables, around, locals, of.body.as_slice(), true)?;
    Ok(FragArm { test, body })
}

// The list of an each block with its rows.
#[cycle(walk)]
#[tactic(auto, unfolding(crate::specs::Frags::row))]
fn make_row(
    tables: &mut Tables,
    around: &Around<'_>,
    locals: &LocalScope<'_>,
    of: &Listed<'_>,
    body: &[Markup],
) -> Result<Row, NoMemory>
    ensures { Makes result (spec.row of.now.list.now of.now.item.now of.now.index.now of.now.key.now (map spec.node body.now) (seen around.now) (names_of locals.now) tables.old) tables.new }
{
    let names = row_names(around.alloc, of.item, of.index)?;
    let head = make_head(tables, around, locals, &names, of)?;
    let inside = LocalScope::inside(&*locals, &names);
    let body = make_nodes(tables, around, &inside, body, true)?;
    Ok(row_of(head, of, body))
}
