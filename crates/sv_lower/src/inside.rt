// Where code stands.
ghost use Rattle.std.specs.Prelude.{◌≡◌};
ghost use Rattle.sv_lower.specs.Tops.{known_at as spec_known_at};
ghost use Rattle.sv_names.specs.Locals.{names_of};

use crate::tops::TopNames;
use std::alloc::Global;
use sv_ast::Ref;
use sv_code::Known;
use sv_names::{LocalScope, is_local, name_of};

/// Where code stands: what the top of its file has, and the scopes between.
#[derive(Clone, Copy)]
pub struct Inside<'a> {
    pub alloc: Global,
    pub tops: &'a TopNames<'a>,
    pub locals: &'a LocalScope<'a>,
}

/// What a name stands for.
pub(crate) fn known_at(inside: &Inside<'_>, name: Ref) -> Known
    ensures { result ≡ spec_known_at inside.now.tops.now (names_of inside.now.locals.now) name }
{
    if is_local(inside.locals, name) {
        return Known::Local(name_of(name));
    }
    match inside.tops.get(name) {
        Some(known) => known,
        None => Known::Local(name_of(name)),
    }
}
