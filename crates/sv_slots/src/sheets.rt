// What is known of each file for the markup of others.
ghost use Rattle.std.specs.Prelude.{◌≡◌, [], map, IfOk, OnOk};
ghost use Rattle.sv_names.specs.Distinct.{with_names};
ghost use Rattle.sv_imports.specs.Given.{decl_names};
ghost use Rattle.sv_slots.specs.Sheets as spec;

use crate::children::children_of;
use std::alloc::Global;
use sv_ast::{Bundle, Decl, FileTree, Ref, SourceFile, Stmt, StmtKind};
use sv_base::{Names, NoMemory};
use sv_list::Items;
use sv_names::{Distinct, NameMap};
use sv_sites::{Site, Sites, sites_of};

/// What is known of a file for the markup of others.
#[derive(Drop)]
pub struct Sheet {
    /// What it declares by `export let`, if it is a component.
    pub props: Distinct,
    /// The names of its `<slot>`s.
    pub slots: Names,
    /// The files that the names of its tags stand for.
    pub children: NameMap,
    /// The sites of its markup.
    pub sites: Sites,
}

/// What is known of the files of a bundle, each at its place. A name that an import without braces gives stands for the file that the
/// import names, if it is there. `NoMemory` comes only where memory runs out.
pub fn sheets_of(alloc: Global, bundle: &Bundle) -> Result<Items<Sheet>, NoMemory>
    ensures { IfOk result (λ sheets. sheets ≡ spec.sheets bundle.now) }
{
    let files = bundle.files.as_slice();
    let mut sheets = Items::new(alloc);
    for source in files {
        sheets.push(sheet_of(alloc, &bundle.names, files, source)?)?;
    }
    Ok(sheets)
}

fn sheet_of(
    alloc: Global,
    names: &Names,
    files: &[SourceFile],
    source: &SourceFile,
) -> Result<Sheet, NoMemory>
    ensures { IfOk result (λ sheet. sheet ≡ spec.sheet names.now files.now source.now) }
{
    let props = props_of(alloc, &source.tree)?;
    let children = children_of(alloc, files, source.tree.statements())?;
    let sites = file_sites(alloc, names, &source.tree)?;
    let slots = slots_of(alloc, sites.as_slice())?;
    Ok(Sheet {
        props,
        slots,
        children,
        sites,
    })
}

fn file_sites(alloc: Global, names: &Names, tree: &FileTree) -> Result<Sites, NoMemory>
    ensures { IfOk result (λ sites. sites ≡ spec.sites_of names.now tree.now) }
{
    match tree {
        FileTree::Component(c) => sites_of(alloc, names, c),
        FileTree::Module(_) => Ok(Sites::new(alloc)),
    }
}

fn slots_of(alloc: Global, sites: &[Site]) -> Result<Names, NoMemory>
    ensures { IfOk result (λ slots. slots ≡ spec.with_slots [] sites.now) }
{
    let mut slots = Names::empty(alloc);
    for site in sites {
        add_slot(&mut slots, site)?;
    }
    Ok(slots)
}

fn add_slot(slots: &mut Names, site: &Site) -> Result<(), NoMemory>
    ensures { OnOk result (slots.new ≡ spec.with_slot slots.old site.now) }
{
    if let Site::Slot(name) = site {
        slots.intern(name.as_str())?;
    }
    Ok(())
}

fn props_of(alloc: Global, tree: &FileTree) -> Result<Distinct, NoMemory>
    ensures { IfOk result (λ props. props ≡ spec.props_of tree.now) }
{
    let mut props = Distinct::new(alloc);
    if let FileTree::Component(c) = tree {
        add_props(&mut props, c.script.stmts.as_slice())?;
    }
    Ok(props)
}

fn add_props(props: &mut Distinct, stmts: &[Stmt]) -> Result<(), NoMemory>
    ensures { OnOk result (props.new ≡ with_names props.old (spec.all_props stmts.now)) }
{
    for stmt in stmts {
        add_exported(props, stmt)?;
    }
    Ok(())
}

fn add_exported(props: &mut Distinct, stmt: &Stmt) -> Result<(), NoMemory>
    ensures { OnOk result (props.new ≡ with_names props.old (spec.prop_names stmt.now)) }
{
    match stmt.kind.get() {
        StmtKind::Export(decls) => add_decls(props, decls.as_slice()),
        _ => Ok(()),
    }
}

fn add_decls(props: &mut Distinct, decls: &[Decl]) -> Result<(), NoMemory>
    ensures { OnOk result (props.new ≡ with_names props.old (decl_names decls.now)) }
{
    for decl in decls {
        props.add(Ref::Plain(decl.name.name))?;
    }
    Ok(())
}
