// `String` and `Boolean`.
ghost use Rattle.std.specs.Prelude.{◌≡◌, IfOk, OnOk};
ghost use Rattle.sv_names.specs.Distinct.{firsts, with_names};
ghost use Rattle.sv_impure.specs.Built as spec;

use std::alloc::Global;
use sv_ast::Ref;
use sv_base::built_in::{BOOLEAN, STRING};
use sv_base::{Names, NoMemory};
use sv_names::Distinct;

/// The names of `String` and `Boolean`, each unless the file declares it: they may be called like pure functions, and stand for nothing
/// else. `names` are those with which the file was read, and `declared` are the names of its top level. `NoMemory` comes only where
/// memory runs out.
#[tactic(auto, using(sv_names::proofs::Names::with_names_append))]
pub fn free_conversions(
    alloc: Global,
    names: &Names,
    declared: &Distinct,
) -> Result<Distinct, NoMemory>
    ensures { IfOk result (λ own. own ≡ firsts (spec.free_conversions names.now declared.now)) }
{
    let mut own = Distinct::new(alloc);
    add_undeclared(&mut own, names, declared, STRING)?;
    add_undeclared(&mut own, names, declared, BOOLEAN)?;
    Ok(own)
}

fn add_undeclared(
    own: &mut Distinct,
    names: &Names,
    declared: &Distinct,
    text: &str,
) -> Result<(), NoMemory>
    ensures { OnOk result (own.new ≡ with_names own.old (spec.undeclared names.now declared.now text.now)) }
{
    match names.find(text) {
        Some(name) => add_unless(own, declared, Ref::Plain(name)),
        None => Ok(()),
    }
}

// Puts a name among others, unless it is declared.
fn add_unless(own: &mut Distinct, declared: &Distinct, name: Ref) -> Result<(), NoMemory>
    ensures { OnOk result (own.new ≡ with_names own.old (spec.unless_declared declared.now name)) }
{
    if declared.has(name) {
        return Ok(());
    }
    own.add(name)
}
