// The printed page.
ghost use Rattle.std.specs.Prelude.{◌≡◌, ◌∷◌, ◌++◌, [], IfOk, OnOk, IsSome};
ghost use Rattle.slab.specs.Slab.{get};
ghost use Rattle.sv_nodes.specs.Nodes.{walk, levels};
ghost use Rattle.sv_nodes.specs.Sound.{IsSound};
ghost use Rattle.sv_nodes.specs.Cells.{nodes_of, kind_of};
ghost use Rattle.sv_html.specs.Html.{html};
ghost use Rattle.sv_dom.specs.Printed.{before_html, after_html};

use crate::Dom;
use slab::Slab;
use std::alloc::Global;
use sv_base::NoMemory;
use sv_html::{Tag, push_end, push_start, push_text};
use sv_nodes::{Content, Entry, entry_at};

/// The text of the page. With `numbers`, each element shows its printed number as the attribute `sv`, and each
/// text in a comment before it.
pub fn print(alloc: Global, dom: &Dom, numbers: bool) -> Result<Vec<u8>, NoMemory>
    ensures { IfOk result (λ text. text.items ≡ html numbers dom.now.tokens) }
{
    let mut out = Vec::new(alloc);
    print_in(alloc, dom.nodes(), dom.next_serial(), 0, numbers, &mut out)?;
    Ok(out)
}

// Prints a node and all below it.
fn print_in(
    alloc: Global,
    nodes: &Slab<Entry>,
    next: u64,
    key: u32,
    numbers: bool,
    out: &mut Vec<u8>,
) -> Result<(), NoMemory>
    requires sound { IsSound (nodes_of nodes.now.slots) next }
    requires live { IsSome (get nodes.now key) }
    ensures { OnOk result (out.new.items ≡ out.old.items ++ html numbers (walk levels (nodes_of nodes.now.slots) (key ∷ []))) }
{
    let entry = entry_at(nodes, key as usize);
    push_before(alloc, out, entry, numbers)?;
    for child in &entry.children {
        print_in(alloc, nodes, next, *child, numbers, out)?;
    }
    push_after(out, entry)?;
    Ok(())
}

// What stands before a node's children.
fn push_before(
    alloc: Global,
    out: &mut Vec<u8>,
    entry: &Entry,
    numbers: bool,
) -> Result<(), NoMemory>
    ensures { OnOk result (out.new.items ≡ out.old.items ++ before_html numbers entry.now.serial entry.now.number (kind_of entry.now.content)) }
{
    let number = if numbers { entry.number } else { None };
    match &entry.content {
        Content::Element(element) => {
            if entry.serial == 0 {
                return Ok(());
            }
            let tag = Tag {
                number,
                name: element.name.as_str(),
                attributes: &element.attributes,
                typed: &element.typed,
            };
            push_start(alloc, out, tag)
        }
        Content::Text(text) => push_text(alloc, out, number, text.as_str()),
        Content::Anchor => Ok(()),
    }
}

// What stands behind a node's children.
fn push_after(out: &mut Vec<u8>, entry: &Entry) -> Result<(), NoMemory>
    ensures { OnOk result (out.new.items ≡ out.old.items ++ after_html entry.now.serial (kind_of entry.now.content)) }
{
    match &entry.content {
        Content::Element(element) => {
            if entry.serial == 0 {
                return Ok(());
            }
            push_end(out, element.name.as_str())
        }
        Content::Text(_) => Ok(()),
        Content::Anchor => Ok(()),
    }
}
