// The page of a component, drawn twice.
use crate::programs::page_of;
use crate::unanswered::Unanswered;
use std::alloc::Global;
use sv_base::NoMemory;
use sv_document::{Nodes, print};
use sv_fresh::{redraw, render};

/// The page of a component, once it is mounted, as patches recorded it; and as evaluations of the present states give it, where that is another one.
pub fn told(alloc: Global, component: &str) -> Result<String, Unanswered> {
    let mounted = page_of(alloc, component)?;
    let program = &mounted.program;
    let page = &mounted.page;
    let drawn = text_of(alloc, &redraw(alloc, program, &page.world, &page.showing)?)?;
    let fresh = text_of(alloc, &render(alloc, program, &page.world, &page.showing)?)?;
    if drawn == fresh {
        return Ok(drawn);
    }
    Ok(format!(in alloc; "{drawn} | {fresh}")?)
}

fn text_of(alloc: Global, nodes: &Nodes) -> Result<String, NoMemory> {
    let text = print(alloc, nodes.as_slice(), None)?;
    Ok(String::from_utf8_lossy(alloc, text.as_slice())?)
}
