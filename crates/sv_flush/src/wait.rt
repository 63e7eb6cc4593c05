// What new and updated instances leave for later in the flush.
ghost use Rattle.std.specs.Prelude.{◌≡◌, ◌++◌, OnOk, option_map};
ghost use Rattle.std.specs.List.{filter_map};
ghost use Rattle.sv_flush.specs.Creation as spec;
ghost use Rattle.sv_flush.specs.Waits.{binding_of as binding_seen};

use crate::callbacks::callbacks_of;
use crate::machine::Machine;
use crate::page::Page;
use crate::rounds::Rounds;
use crate::waiting::{Binding, Waiting};
use sv_base::{Name, NoMemory};
use sv_code::{FragAttr, Known, Prop, Tag};
use sv_instance::{Bound, When};
use sv_meaning::{component_at, variable_of};
use sv_value::Inst;

impl Machine<'_> {
    /// Puts the mount callbacks of an instance into the render queue, as one entry.
    pub fn queue_mount(&self, page: &mut Page, inst: Inst) -> Result<(), NoMemory>
        ensures { OnOk result (page.new ≡ spec.mount_waits inst.number page.old) }
    {
        if callbacks_of(&page.world, inst, When::Mount).is_empty() {
            return Ok(());
        }
        page.rounds.push_waiting(Waiting::Mounting(inst))
    }

    /// Puts the `afterUpdate` callbacks of an instance into the render queue.
    pub fn queue_after(&self, page: &mut Page, inst: Inst) -> Result<(), NoMemory>
        ensures { OnOk result (page.new ≡ spec.after_waits inst.number page.old) }
    {
        let count = callbacks_of(&page.world, inst, When::After).len();
        push_after(&mut page.rounds, inst, count)
    }

    /// Pushes the binding callbacks of a tag, in the order of the text.
    pub fn bind(&self, page: &mut Page, tag: &Tag, child: Inst, owner: Inst) -> Result<(), NoMemory>
        ensures { OnOk result (page.new ≡ spec.binds self.now.program.now tag.now child.number owner.number page.old) }
    {
        let Some(component) = component_at(self.program, tag.file as u32) else {
            return Ok(());
        };
        let ends = Ends { child, owner };
        let props = component.props.as_slice();
        push_bindings(&mut page.rounds, ends, props, tag.attrs.as_slice())
    }
}

// The child that has a prop, and the instance that has the variable to which the prop is bound.
#[derive(Clone, Copy)]
struct Ends {
    child: Inst,
    owner: Inst,
}

fn push_after(rounds: &mut Rounds, inst: Inst, count: usize) -> Result<(), NoMemory>
    ensures { OnOk result (rounds.new ≡ record rounds.old { render = rounds.old.render ++ spec.after_entries inst.number 0 count }) }
{
    for at in 0..count {
        rounds.push_waiting(Waiting::AfterUpdate(inst, at))?;
    }
    Ok(())
}

fn push_bindings(
    rounds: &mut Rounds,
    ends: Ends,
    props: &[Prop],
    attrs: &[FragAttr],
) -> Result<(), NoMemory>
    ensures { OnOk result (rounds.new ≡ record rounds.old { bindings = rounds.old.bindings ++ filter_map (spec.binding_of ends.child.number ends.owner.number props.now) attrs.now }) }
{
    for attr in attrs {
        if let Some(binding) = binding_of(ends, props, attr) {
            rounds.push_binding(binding)?;
        }
    }
    Ok(())
}

// The binding of a prop to a variable of the owner.
fn binding_of(ends: Ends, props: &[Prop], attr: &FragAttr) -> Option<Binding>
    ensures { option_map binding_seen result ≡ spec.binding_of ends.child.number ends.owner.number props.now attr.now }
{
    let FragAttr::Bind { span, name, target } = attr else {
        return None;
    };
    let cell = prop_cell(props, *name)?;
    let Known::Cell(variable) = variable_of(&target.code)? else {
        return None;
    };
    Some(Binding {
        child: ends.child,
        bound: Bound {
            cell,
            owner: ends.owner,
            target: variable,
        },
        span: *span,
    })
}

fn prop_cell(props: &[Prop], name: Name) -> Option<u8>
    ensures { result ≡ spec.prop_cell props.now name }
{
    for prop in props {
        if prop.name == name {
            return Some(prop.cell);
        }
    }
    None
}
