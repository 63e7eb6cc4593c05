// States that users leave in elements.
ghost use Rattle.std.specs.Prelude.{◌≡◌, Some, option_copied, IfOk, if◌then◌else◌};
ghost use Rattle.sv_shapes.specs.Typed.{laid, laid_all, laid_rows};

use crate::keep::{share_all_texts, share_props, share_states};
use crate::shape::{Row, Rows, Shape, Shapes};
use std::alloc::Global;
use sv_base::NoMemory;
use sv_list::Items;
use sv_tokens::Typed;

/// The same shapes with a state that a user left in the element with a mark; `NoMemory` comes only where memory runs out.
#[cycle(lay)]
pub fn lay_all(alloc: Global, mark: u64, typed: &Typed, parts: &[Shape]) -> Result<Shapes, NoMemory>
    ensures { IfOk result (λ all. all ≡ laid_all mark typed.now parts.now) }
{
    let mut all = Items::new(alloc);
    for part in parts {
        all.push(lay_one(alloc, mark, typed, part)?)?;
    }
    Ok(all)
}

#[cycle(lay)]
fn lay_rows(alloc: Global, mark: u64, typed: &Typed, rows: &[Row]) -> Result<Rows, NoMemory>
    ensures { IfOk result (λ all. all ≡ laid_rows mark typed.now rows.now) }
{
    let mut all = Items::new(alloc);
    for row in rows {
        let parts = lay_all(alloc, mark, typed, row.parts.as_slice())?;
        all.push(Row {
            key: row.key.share()?,
            item: row.item.share()?,
            parts,
        })?;
    }
    Ok(all)
}

#[cycle(lay)]
fn lay_one(alloc: Global, mark: u64, typed: &Typed, shape: &Shape) -> Result<Shape, NoMemory>
    ensures { IfOk result (λ one. one ≡ laid mark typed.now shape.now) }
{
    match shape {
        Shape::Literal(own) => Ok(Shape::Literal(*own)),
        Shape::Text { mark: own, text } => Ok(Shape::Text {
            mark: *own,
            text: text.share()?,
        }),
        Shape::Element {
            mark: own,
            typed: old,
            states,
            parts,
        } => Ok(Shape::Element {
            mark: *own,
            typed: lay_if(*own == mark, typed, old.as_ref())?,
            states: share_states(alloc, states.as_slice())?,
            parts: lay_all(alloc, mark, typed, parts.as_slice())?,
        }),
        Shape::Tag { place, texts } => Ok(Shape::Tag {
            place: *place,
            texts: share_all_texts(alloc, texts.as_slice())?,
        }),
        Shape::Nothing => Ok(Shape::Nothing),
        Shape::Slot { props, parts } => Ok(Shape::Slot {
            props: share_props(alloc, props.as_slice())?,
            parts: lay_all(alloc, mark, typed, parts.as_slice())?,
        }),
        Shape::If { arm, parts } => Ok(Shape::If {
            arm: *arm,
            parts: lay_all(alloc, mark, typed, parts.as_slice())?,
        }),
        Shape::Each { number, rows, none } => Ok(Shape::Each {
            number: *number,
            rows: lay_rows(alloc, mark, typed, rows.as_slice())?,
            none: lay_all(alloc, mark, typed, none.as_slice())?,
        }),
        Shape::Key { state, parts } => Ok(Shape::Key {
            state: state.share()?,
            parts: lay_all(alloc, mark, typed, parts.as_slice())?,
        }),
    }
}

// The state of an element, where another is laid down on it or not.
fn lay_if(here: bool, typed: &Typed, old: Option<&Typed>) -> Result<Option<Typed>, NoMemory>
    ensures { IfOk result (λ now. now ≡ (if here then Some typed.now else option_copied old.entry)) }
{
    if here {
        return Ok(Some(typed.share()?));
    }
    match old {
        Some(old) => Ok(Some(old.share()?)),
        None => Ok(None),
    }
}
