// The lists of expressions.
ghost use Rattle.std.specs.Prelude.{map};
ghost use Rattle.sv_lower.specs.Does.{Makes, each};
ghost use Rattle.sv_lower.specs.Inside.{made_in};
ghost use Rattle.sv_lower.specs.Lower as spec;

use crate::expressions::{lower_expr, lower_field, lower_item, lower_link};
use crate::inside::Inside;
use sv_ast::{Entry, Expr, Field, Link};
use sv_base::NoMemory;
use sv_code::{CodeFields, CodeItems, CodeLinks, Codes, Functions};

/// The code of expressions in turn.
#[cycle(lower)]
pub(crate) fn lower_exprs(
    inside: &Inside<'_>,
    functions: &mut Functions,
    list: &[Expr],
) -> Result<Codes, NoMemory>
    ensures { Makes result (made_in inside.now (each (spec.all (map spec.expr_made list.now))) functions.old) functions.new }
{
    let mut codes = Codes::new(inside.alloc);
    for of in list {
        codes.push(lower_expr(inside, functions, of)?)?;
    }
    Ok(codes)
}

/// The code of the items of a list literal.
#[cycle(lower)]
pub(crate) fn lower_items(
    inside: &Inside<'_>,
    functions: &mut Functions,
    items: &[Entry],
) -> Result<CodeItems, NoMemory>
    ensures { Makes result (made_in inside.now (each (spec.all (map spec.entry_made items.now))) functions.old) functions.new }
{
    let mut codes = CodeItems::new(inside.alloc);
    for item in items {
        codes.push(lower_item(inside, functions, item)?)?;
    }
    Ok(codes)
}

/// The code of the fields of an object literal.
#[cycle(lower)]
pub(crate) fn lower_fields(
    inside: &Inside<'_>,
    functions: &mut Functions,
    fields: &[Field],
) -> Result<CodeFields, NoMemory>
    ensures { Makes result (made_in inside.now (each (spec.all (map spec.field_made fields.now))) functions.old) functions.new }
{
    let mut codes = CodeFields::new(inside.alloc);
    for of in fields {
        codes.push(lower_field(inside, functions, of)?)?;
    }
    Ok(codes)
}

/// The code of the operators of a chain.
#[cycle(lower)]
pub(crate) fn lower_links(
    inside: &Inside<'_>,
    functions: &mut Functions,
    links: &[Link],
) -> Result<CodeLinks, NoMemory>
    ensures { Makes result (made_in inside.now (each (spec.all (map spec.link_made links.now))) functions.old) functions.new }
{
    let mut codes = CodeLinks::new(inside.alloc);
    for link in links {
        codes.push(lower_link(inside, functions, link)?)?;
    }
    Ok(codes)
}
