// The props that a slot gives to its content.
ghost use Rattle.std.specs.Prelude.{◌≡◌, IfOk};
ghost use Rattle.sv_fresh.specs.Slots as spec;

use crate::scene::Here;
use crate::values::{parts_value, value_at};
use std::alloc::Global;
use sv_base::{Name, NoMemory};
use sv_code::{FragAttr, FragValue};
use sv_list::Items;
use sv_shapes::{Held, SlotProp, SlotProps};
use sv_value::Value;

// What a value passes, which is true where there is none.
fn passed_value(here: &Here<'_>, value: &FragValue) -> Result<Option<Held>, NoMemory>
    ensures { IfOk result (λ passed. passed ≡ spec.passed_value here.now.scene.now.program.now here.now.view.now value.now) }
{
    match value {
        FragValue::Bare => Ok(Some(Held::new(Value::Bool(true)))),
        FragValue::Parts(pieces) => parts_value(here, pieces.as_slice()),
    }
}

/// A prop with a value.
pub fn prop_with(alloc: Global, name: Name, value: Held) -> SlotProp
    ensures { result ≡ spec.prop_with name value }
{
    SlotProp {
        name,
        value,
        number: 0,
        texts: Items::new(alloc),
    }
}

fn prop_of(here: &Here<'_>, attr: &FragAttr) -> Result<Option<SlotProp>, NoMemory>
    ensures { IfOk result (λ prop. prop ≡ spec.prop_of here.now.scene.now.program.now here.now.view.now attr.now) }
{
    let alloc = here.scene.alloc;
    match attr {
        FragAttr::Plain { name, value, .. } => match passed_value(here, value)? {
            Some(value) => Ok(Some(prop_with(alloc, *name, value))),
            None => Ok(None),
        },
        FragAttr::On { .. } => Ok(None),
        FragAttr::Bind { name, target, .. } => match value_at(here, target)? {
            Some(value) => Ok(Some(prop_with(alloc, *name, value))),
            None => Ok(None),
        },
        FragAttr::Class { .. } => Ok(None),
    }
}

/// The props of a slot.
pub fn props(here: &Here<'_>, attrs: &[FragAttr]) -> Result<SlotProps, NoMemory>
    ensures { IfOk result (λ all. all ≡ spec.props here.now.scene.now.program.now here.now.view.now attrs.now) }
{
    let mut all = Items::new(here.scene.alloc);
    for attr in attrs {
        if let Some(prop) = prop_of(here, attr)? {
            all.push(prop)?;
        }
    }
    Ok(all)
}
