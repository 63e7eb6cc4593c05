// The sites of small components.
use crate::read::component;
use crate::unanswered::Unanswered;
use crate::words::push_ref;
use std::alloc::{AllocError, Global};
use sv_ast::Ref;
use sv_base::{Name, Names, Span};
use sv_rows::push_gap;
use sv_sites::{Site, sites_of};

/// The sites of a component: `C.m` for a prop, `C.m=v` for a `bind:`, `C#a` for content, with `+` where it is given again, `#a` for a slot, and
/// `=v` for a `bind:` of an element, with `!` where it may not stand there and `?` for a local name; each but a slot with the byte at which it
/// begins.
pub fn sites(alloc: Global, text: &str) -> Result<String, Unanswered> {
    let mut names = Names::empty(alloc);
    let tree = component(alloc, &mut names, text)?;
    shown(alloc, &names, sites_of(alloc, &names, &tree)?.as_slice())
}

fn shown(alloc: Global, names: &Names, sites: &[Site]) -> Result<String, Unanswered> {
    let mut line = String::new(alloc);
    for site in sites {
        push_gap(&mut line, " ")?;
        push_site(&mut line, names, site)?;
    }
    Ok(line)
}

fn push_site(line: &mut String, names: &Names, site: &Site) -> Result<(), AllocError> {
    match site {
        Site::Prop { of, name, at } => {
            push_prop(line, names, *of, *name)?;
            push_place(line, *at)
        }
        Site::Content {
            of,
            slot,
            again,
            at,
        } => {
            push_name(line, names, *of)?;
            write!(line, "#{}{}", slot.as_str(), if *again { "+" } else { "" })?;
            push_place(line, *at)
        }
        Site::PropBind {
            of,
            name,
            target,
            at,
        } => {
            push_prop(line, names, *of, *name)?;
            push_target(line, names, *target)?;
            push_place(line, *at)
        }
        Site::Bind { fits, target, at } => {
            line.push_str(if *fits { "" } else { "!" })?;
            push_target(line, names, *target)?;
            push_place(line, *at)
        }
        Site::Slot(name) => write!(line, "#{}", name.as_str()),
    }
}

fn push_name(line: &mut String, names: &Names, name: Name) -> Result<(), AllocError> {
    line.push_str(names.text(name).unwrap_or("-"))
}

fn push_prop(line: &mut String, names: &Names, of: Name, name: Name) -> Result<(), AllocError> {
    push_name(line, names, of)?;
    line.push_str(".")?;
    push_name(line, names, name)
}

// Appends what a `bind:` binds.
fn push_target(line: &mut String, names: &Names, target: Option<Ref>) -> Result<(), AllocError> {
    line.push_str("=")?;
    match target {
        Some(target) => push_ref(line, names, target),
        None => line.push_str("?"),
    }
}

fn push_place(line: &mut String, at: Span) -> Result<(), AllocError> {
    write!(line, "@{}", at.from)
}
