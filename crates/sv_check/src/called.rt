// Names that may stand only where they are called in some way.
ghost use Rattle.std.specs.Prelude.{◌≡◌, [], IfOk, OnOk};
ghost use Rattle.sv_check.specs.Called as spec;

use indexmap::IndexSet;
use std::alloc::Global;
use std::marker::Model;
use sv_ast::{Expr, ExprKind};
use sv_base::{Names, NoMemory, Span};
use sv_list::Items;
use sv_names::Distinct;
use sv_resolve::name_place;
use sv_scopes::Use;

/// Places in a file, each once. A clause sees it as the list of them.
#[derive(Drop)]
pub(crate) struct Places {
    set: IndexSet<u32>,
}

impl Model for Places {
    ghost use Rattle.std.specs.Prelude.{List, ℕ};

    ghost Value = { List ℕ };

    ghost view = { λ p. p.set.keys };
}

impl Places {
    /// No places.
    pub(crate) fn new(alloc: Global) -> Places
        ensures { result ≡ [] }
    {
        Places {
            set: IndexSet::new(alloc),
        }
    }

    /// Whether a place is there.
    pub(crate) fn has(&self, place: u32) -> bool
        ensures { result ≡ spec.is_place place self.now }
    {
        self.set.contains(&place)
    }

    fn add(&mut self, place: u32) -> Result<(), NoMemory>
        ensures { OnOk result (self.new ≡ spec.with_place self.old place) }
    {
        self.set.insert(place)?;
        Ok(())
    }
}

/// Adds the place of the name that an expression is.
pub(crate) fn add_name(places: &mut Places, e: &Expr) -> Result<(), NoMemory>
    ensures { OnOk result (places.new ≡ spec.with_places places.old (spec.name_of_call e.now)) }
{
    match e.kind.get() {
        ExprKind::Read(_) => places.add(e.span.from),
        _ => Ok(()),
    }
}

/// The places of some names that stand elsewhere than where they may.
pub(crate) fn misplaced(
    alloc: Global,
    names: &Names,
    sought: &Distinct,
    free: &Places,
    uses: &[Use],
) -> Result<Items<Span>, NoMemory>
    ensures { IfOk result (λ places. places ≡ spec.misplaced names.now sought.now free.now uses.now) }
{
    let mut places = Items::new(alloc);
    for found in uses {
        if is_misplaced(sought, free, found) {
            places.push(name_place(names, found))?;
        }
    }
    Ok(places)
}

fn is_misplaced(sought: &Distinct, free: &Places, found: &Use) -> bool
    ensures { result ≡ spec.is_misplaced sought.now free.now found.now }
{
    sought.has(found.name) && !free.has(found.span.from)
}
