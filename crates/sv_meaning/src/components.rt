// Components by number, and what their tags name.
ghost use Rattle.std.specs.Prelude.{◌≡◌, option_copied};
ghost use Rattle.sv_meaning.specs.Components as spec;

use sv_code::{Code, CodeKind, Component, FileCode, Frag, Known, Program};
use sv_value::Inst;
use sv_world::World;

/// The component of a file, or `None` exactly where the program has no such file, or it is a module.
pub fn component_at(program: &Program, file: u32) -> Option<&Component>
    ensures { option_copied result ≡ spec.component_at program.now file }
{
    match &program.files.as_slice().get(file as usize)?.code {
        FileCode::Component(component) => Some(component),
        FileCode::Module(_) => None,
    }
}

/// The component of an instance, or `None` exactly where it isn't live or the program has no such component.
pub fn component_of<'a>(program: &'a Program, world: &World, inst: Inst) -> Option<&'a Component>
    ensures { option_copied result ≡ spec.component_of program.now world.now inst.number }
{
    let instance = world.states.get(inst)?;
    component_at(program, instance.place.component())
}

/// The markup of a component; none without one.
pub fn markup_of(component: Option<&Component>) -> &[Frag]
    ensures { result.now ≡ spec.markup_of (option_copied component.entry) }
{
    match component {
        Some(component) => component.markup.as_slice(),
        None => &[],
    }
}

/// The variable that an expression is, or `None` exactly where it is no name alone.
pub fn variable_of(code: &Code) -> Option<Known>
    ensures { result ≡ spec.variable_of code.now }
{
    match code.kind.get() {
        CodeKind::Read(known) => Some(*known),
        _ => None,
    }
}
