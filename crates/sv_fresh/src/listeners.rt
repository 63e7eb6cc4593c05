// The directives of an element that events are told.
ghost use Rattle.std.specs.Prelude.{◌≡◌, IfOk};
ghost use Rattle.sv_fresh.specs.Listeners as spec;

use crate::scene::Here;
use sv_base::{Name, NoMemory, Span};
use sv_code::{FragAttr, Known, Program};
use sv_document::{Binding, Directive, Listener, Listeners};
use sv_list::Items;
use sv_meaning::variable_of;

// A binding of a name to a variable.
fn binding_of(program: &Program, span: Span, name: Name, target: Known) -> Option<Directive>
    ensures { result ≡ spec.binding_of program.now span name target }
{
    let names = &program.names;
    if names.is_text(name, "value") {
        return Some(Directive::BindValue(Binding { target, span }));
    }
    if names.is_text(name, "checked") {
        return Some(Directive::BindChecked(Binding { target, span }));
    }
    None
}

fn directive_of(program: &Program, attr: &FragAttr) -> Option<Directive>
    ensures { result ≡ spec.directive_of program.now attr.now }
{
    match attr {
        FragAttr::Plain { .. } => None,
        FragAttr::On { handler, .. } => Some(Directive::Handler(*handler)),
        FragAttr::Bind { span, name, target } => match variable_of(&target.code) {
            Some(known) => binding_of(program, *span, *name, known),
            None => None,
        },
        FragAttr::Class { .. } => None,
    }
}

// A directive that is written on the present view.
fn listener_on(here: &Here<'_>, at: Directive) -> Result<Listener, NoMemory>
    ensures { IfOk result (λ listener. listener ≡ spec.listener_on here.now.view.now at) }
{
    let locals = here.view.locals().share()?;
    Ok(Listener {
        inst: here.view.inst(),
        at,
        locals,
    })
}

/// The directives of an element that events are told, in the order of the text.
pub fn listeners(here: &Here<'_>, attrs: &[FragAttr]) -> Result<Listeners, NoMemory>
    ensures { IfOk result (λ all. all ≡ spec.listeners here.now.scene.now.program.now here.now.view.now attrs.now) }
{
    let mut all = Items::new(here.scene.alloc);
    for attr in attrs {
        if let Some(at) = directive_of(here.scene.program, attr) {
            all.push(listener_on(here, at)?)?;
        }
    }
    Ok(all)
}
