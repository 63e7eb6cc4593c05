// The names that tags and rows declare, as what they hide.
ghost use Rattle.std.specs.Prelude.{◌≡◌, IfOk, OnOk};
ghost use Rattle.std.specs.List.{flat_map};
ghost use Rattle.sv_names.specs.Distinct.{firsts, with_names};
ghost use Rattle.sv_scopes.specs.Attributes as spec;
ghost use Rattle.sv_scopes.specs.Parts.{names_of};
ghost use Rattle.sv_scopes.specs.Rows.{row_names as spec_row_names};

use std::alloc::Global;
use sv_ast::{AttrKind, AttrPart, AttrValue, ExprKind, Named, Ref, TagAttr};
use sv_base::NoMemory;
use sv_names::Distinct;

/// The `let:` names of a tag, each once: behind the colon, or the name that is the value (Svelte 4 docs, '`<slot key={value}>`').
/// `NoMemory` comes only where memory runs out.
pub fn let_names(alloc: Global, attrs: &[TagAttr]) -> Result<Distinct, NoMemory>
    ensures { IfOk result (λ names. names ≡ firsts (names_of (spec.lets attrs.now))) }
{
    let mut names = Distinct::new(alloc);
    for attr in attrs {
        add_let(&mut names, attr)?;
    }
    Ok(names)
}

fn add_let(names: &mut Distinct, attr: &TagAttr) -> Result<(), NoMemory>
    ensures { OnOk result (names.new ≡ with_names names.old (names_of (spec.let_names attr.now))) }
{
    if !matches!(attr.kind, AttrKind::Let) {
        return Ok(());
    }
    match &attr.value {
        AttrValue::Bare => names.add(Ref::Plain(attr.name)),
        AttrValue::Parts(parts) => add_given(names, parts.as_slice()),
    }
}

fn add_given(names: &mut Distinct, parts: &[AttrPart]) -> Result<(), NoMemory>
    ensures { OnOk result (names.new ≡ with_names names.old (names_of (flat_map spec.given_part parts.now))) }
{
    for part in parts {
        add_part(names, part)?;
    }
    Ok(())
}

fn add_part(names: &mut Distinct, part: &AttrPart) -> Result<(), NoMemory>
    ensures { OnOk result (names.new ≡ with_names names.old (names_of (spec.given_part part.now))) }
{
    match part {
        AttrPart::Show { value, .. } => match value.kind.get() {
            ExprKind::Read(Ref::Plain(name)) => names.add(Ref::Plain(*name)),
            _ => Ok(()),
        },
        AttrPart::Text(_) => Ok(()),
    }
}

/// The names of a row, each once: its item, and its index where it has one (Svelte 4 docs, '{#each}'). `NoMemory` comes only where
/// memory runs out.
pub fn row_names(alloc: Global, item: &Named, index: &Option<Named>) -> Result<Distinct, NoMemory>
    ensures { IfOk result (λ names. names ≡ firsts (spec_row_names item.now index.now)) }
{
    let mut names = Distinct::new(alloc);
    names.add(Ref::Plain(item.name))?;
    if let Some(index) = index {
        names.add(Ref::Plain(index.name))?;
    }
    Ok(names)
}
