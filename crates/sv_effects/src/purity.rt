// What in a file is as a pure function.
ghost use Rattle.std.specs.Prelude.{◌≡◌, IfOk};
ghost use Rattle.std.specs.List.{list_any};
ghost use Rattle.sv_names.specs.Distinct.{firsts};
ghost use Rattle.sv_effects.specs.Purity as spec;

use crate::notes::Sign;
use crate::signs::signs_of_arrow;
use crate::stains::is_stain;
use crate::top::Top;
use std::alloc::Global;
use sv_ast::{Expr, Ref, Stmt};
use sv_base::{Names, NoMemory};
use sv_names::Distinct;

/// What bodies in a file go by: what its top level declares, and the names that stand for pure functions.
#[derive(Drop)]
pub struct Purity {
    top: Top,
    functions: Distinct,
}

impl Purity {
    /// That of a file with some statements, where some names stand for pure functions. `NoMemory` comes only where memory runs out.
    pub fn new(alloc: Global, stmts: &[Stmt], pure: &[Ref]) -> Result<Purity, NoMemory>
        ensures { IfOk result (λ purity. purity ≡ spec.purity_of stmts.now pure.now) }
    {
        Ok(Purity {
            top: Top::new(alloc, stmts)?,
            functions: distinct(alloc, pure)?,
        })
    }

    /// Whether a name stands for a pure function.
    pub fn is_pure_name(&self, name: Ref) -> bool
        ensures { result ≡ spec.is_pure_name self.now name }
    {
        self.functions.has(name)
    }

    /// Whether the body of an arrow is as that of a pure function: it isn't stained, as `pure_functions` says, and calls pure functions
    /// alone. `names` are those with which the file was read. `NoMemory` comes only where memory runs out.
    pub fn is_pure_arrow(
        &self,
        alloc: Global,
        names: &Names,
        arrow: &Expr,
    ) -> Result<bool, NoMemory>
        ensures { IfOk result (λ is_pure. is_pure ≡ spec.is_pure_arrow names.now self.now arrow.now) }
    {
        let signs = signs_of_arrow(alloc, names, arrow)?;
        Ok(!is_any_stain(names, self, signs.as_slice()))
    }
}

fn distinct(alloc: Global, names: &[Ref]) -> Result<Distinct, NoMemory>
    ensures { IfOk result (λ list. list ≡ firsts names.now) }
{
    let mut list = Distinct::new(alloc);
    for name in names {
        list.add(*name)?;
    }
    Ok(list)
}

fn is_any_stain(names: &Names, purity: &Purity, signs: &[Sign]) -> bool
    ensures { result ≡ list_any (spec.stains_beside names.now purity.now) signs.now }
{
    for sign in signs {
        if is_stain(names, &purity.top, calls_pure(purity, *sign), *sign) {
            return true;
        }
    }
    false
}

fn calls_pure(purity: &Purity, sign: Sign) -> bool
    ensures { result ≡ spec.calls_pure purity.now sign }
{
    match sign {
        Sign::Calls(name) | Sign::Hands(name) => purity.is_pure_name(name),
        Sign::Reads(_) | Sign::Sets(_) | Sign::Breaks => false,
    }
}
