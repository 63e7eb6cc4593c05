// The mistakes of a file.
ghost use Rattle.std.specs.Prelude.{◌≡◌, ◌<◌, [], Some, length, fold, slice_get, IfOk, IfErr, OnOk};
ghost use Rattle.sv_resolve.specs.Earliest.{earlier, IsFirst};
ghost use Rattle.sv_resolve.specs.Mistakes.{refused};
ghost use Rattle.sv_check.specs.Checked.{IsChecked, IsCauseIn, in_file as spec_in_file};
ghost use Rattle.sv_check.specs.Files as files;
ghost use Rattle.sv_check.specs.Found.{AreFound};
ghost use Rattle.sv_check.specs.Mistakes as spec;

use crate::cells::too_many;
use crate::checked::CheckedComponent;
use crate::derived::bad_derived;
use crate::first::{join, offer_all};
use crate::found::Found;
use crate::life::bad_life_places;
use crate::markup::{offer_impure, offer_tags};
use crate::stores::bad_stores;
use crate::waiting::run_of;
use std::alloc::Global;
use sv_ast::{Bundle, FileTree, Ref, RefList, SourceFile};
use sv_base::{Names, NoMemory, Span};
use sv_list::Items;
use sv_resolve::{CheckError, CheckKind, CheckRefusal, Scopes, first_mistake, scopes_of};
use sv_scopes::{FileScopes, Scope, scopes_of_component, scopes_of_module};

/// What is told of a file, or its first mistake.
pub(crate) fn check_file(
    alloc: Global,
    bundle: &Bundle,
    found: &Found,
    n: usize,
    source: &SourceFile,
) -> Result<CheckedComponent, CheckError>
    requires found { AreFound bundle.now found.now }
    requires source { slice_get bundle.now.files n ≡ Some source.now }
    ensures clean { OnOk result (spec.AreMistakes bundle.now found.now.cycles found.now.pure n []) }
    ensures checked { IfOk result (IsChecked source.now) }
    ensures refused { IfErr result (IsCauseIn bundle.now found.now.cycles found.now.pure n) }
{
    let scopes = file_scopes(alloc, &source.tree)?;
    let told = told_scopes(alloc, &source.tree, &scopes.top)?;
    let run = run_of(alloc, told.cells.as_slice(), source.tree.statements())?;
    let waiting = run.waiting.as_slice();
    match file_mistake(alloc, bundle, found, n, source, &scopes, waiting)? {
        Some(first) => Err(CheckError::Refused(in_file(n, first)?)),
        None => Ok(CheckedComponent {
            scopes: told,
            order: run.order,
        }),
    }
}

// The first mistake of a file, whose reactive statements wait at some places.
fn file_mistake(
    alloc: Global,
    bundle: &Bundle,
    found: &Found,
    n: usize,
    source: &SourceFile,
    scopes: &FileScopes,
    waiting: &[Span],
) -> Result<Option<CheckRefusal>, NoMemory>
    requires found { AreFound bundle.now found.now }
    requires source { slice_get bundle.now.files n ≡ Some source.now }
    requires scopes { scopes.now ≡ files.scopes_of source.now.tree }
    ensures { IfOk result (λ first. IsFirst first (spec.file_mistakes bundle.now found.now.cycles found.now.pure n source.now waiting.now)) }
{
    let names = &bundle.names;
    let mut first = None;
    offer_at(&mut first, CheckKind::ImportCycle, &found.cycles, n);
    offer_at(&mut first, CheckKind::UnknownImport, &found.unknown, n);
    let own = first_mistake(alloc, names, scopes)?;
    join(&mut first, own);
    let pure = pure_at(&found.pure, n);
    offer_script(alloc, &mut first, names, pure, &source.tree, &scopes.top)?;
    let declares = scopes.top.declares.as_slice();
    offer_impure(alloc, &mut first, names, pure, &source.tree, declares)?;
    offer_tags(alloc, &mut first, found.sheets.as_slice(), n, declares)?;
    let cells = too_many(alloc, names, &scopes.top)?;
    offer_all(&mut first, CheckKind::TooManyNames, cells.as_slice());
    offer_all(&mut first, CheckKind::ReactiveCycle, waiting);
    Ok(first)
}

// Offers a mistake at each place of a file, among those of all files.
fn offer_at(
    first: &mut Option<CheckRefusal>,
    kind: CheckKind,
    places: &Items<Items<Span>>,
    n: usize,
)
    ensures { first.new ≡ fold earlier first.old (refused kind (spec.at_file places.now n)) }
{
    if let Some(places) = places.as_slice().get(n) {
        offer_all(first, kind, places.as_slice());
    }
}

// The names of pure functions of a file, among those of all files.
fn pure_at(pure: &Items<RefList>, n: usize) -> &[Ref]
    ensures { result.now ≡ spec.pure_at pure.now n }
{
    match pure.as_slice().get(n) {
        Some(own) => own.as_slice(),
        None => &[],
    }
}

// Offers what a file's script shows by itself, beside the mistakes in its names.
fn offer_script(
    alloc: Global,
    first: &mut Option<CheckRefusal>,
    names: &Names,
    pure: &[Ref],
    tree: &FileTree,
    top: &Scope,
) -> Result<(), NoMemory>
    requires { top.now ≡ (files.scopes_of tree.now).top }
    ensures { OnOk result (first.new ≡ fold earlier first.old (spec.script_mistakes names.now pure.now tree.now)) }
{
    let in_component = !tree.is_module();
    let stores = bad_stores(alloc, names, in_component, top)?;
    offer_all(first, CheckKind::BadStore, stores.as_slice());
    let life = bad_life_places(alloc, names, in_component, tree.statements(), top)?;
    offer_all(first, CheckKind::BadLifecyclePlace, life.as_slice());
    let derived = bad_derived(alloc, names, pure, tree.statements(), top)?;
    offer_all(first, CheckKind::BadDerived, derived.as_slice());
    Ok(())
}

fn file_scopes(alloc: Global, tree: &FileTree) -> Result<FileScopes, NoMemory>
    ensures { IfOk result (λ scopes. scopes ≡ files.scopes_of tree.now) }
{
    match tree {
        FileTree::Component(c) => scopes_of_component(alloc, c),
        FileTree::Module(m) => scopes_of_module(alloc, &m.script),
    }
}

// The cells and constants of a component. Of a module none are told.
fn told_scopes(alloc: Global, tree: &FileTree, top: &Scope) -> Result<Scopes, NoMemory>
    requires { top.now ≡ (files.scopes_of tree.now).top }
    ensures { IfOk result (λ scopes. scopes ≡ files.told_scopes tree.now) }
{
    match tree {
        FileTree::Component(_) => scopes_of(alloc, top),
        FileTree::Module(_) => Ok(Scopes {
            cells: RefList::new(alloc),
            constants: RefList::new(alloc),
        }),
    }
}

// A mistake with its place in the file with this number.
fn in_file(n: usize, mistake: CheckRefusal) -> Result<CheckRefusal, NoMemory>
    ensures { IfOk result (λ refusal. refusal ≡ spec_in_file n mistake) }
{
    let Ok(file) = u16::try_from(n) else {
        return Err(NoMemory);
    };
    Ok(CheckRefusal {
        at: Span { file, ..mistake.at },
        ..mistake
    })
}
