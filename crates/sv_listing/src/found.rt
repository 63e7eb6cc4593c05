// The expressions that were found.
ghost use Rattle.std.specs.Prelude.{◌≡◌, ◌∷◌, ◌++◌, [], map, IfOk, OnOk};
ghost use Rattle.sv_listing.specs.Parts as spec;

use crate::walk::find_in_tag;
use std::alloc::Global;
use std::marker::Model;
use sv_base::NoMemory;
use sv_code::{Part, Tag};

/// Expressions of markup, in the order of the text. A clause sees it as their list.
#[derive(Drop)]
pub(crate) struct Parts<'a> {
    list: Vec<&'a Part>,
}

impl<'a> Model for Parts<'a> {
    ghost use Rattle.std.specs.Prelude.{List, map};
    ghost use Rattle.std.specs.Coded.{codes};
    ghost use Rattle.sv_code.specs.contracts.parts.Part as code;
    ghost use Rattle.sv_code.specs.declared.parts.Part.{Part};

    ghost Value = { List Part };

    ghost coded = { Prim.hlevel (codes, code.the_row.coded) };

    ghost view = { λ found. map (λ part. part.now) found.list.items };
}

impl<'a> Parts<'a> {
    /// None yet.
    pub fn new(alloc: Global) -> Parts<'a>
        ensures { result ≡ [] }
    {
        Parts {
            list: Vec::new(alloc),
        }
    }

    /// One more.
    pub fn push(&mut self, part: &'a Part) -> Result<(), NoMemory>
        ensures { OnOk result (self.new ≡ self.old ++ part.now ∷ []) }
    {
        Ok(self.list.push(part)?)
    }

    /// Those of another list.
    pub fn extend(&mut self, more: &Parts<'a>) -> Result<(), NoMemory>
        ensures { OnOk result (self.new ≡ self.old ++ more.now) }
    {
        Ok(self.list.extend_from_slice(&more.list)?)
    }

    /// The expressions.
    pub fn as_slice(&self) -> &[&'a Part]
        ensures { map (λ part. part.now) result.now ≡ self.now }
    {
        &self.list
    }
}

/// The expressions inside of component tags, by number.
pub(crate) fn insides_of<'a>(alloc: Global, tags: &'a [Tag]) -> Result<Vec<Parts<'a>>, NoMemory>
    ensures { IfOk result (λ insides. insides.items ≡ spec.insides tags.now) }
{
    let mut insides = Vec::new(alloc);
    for tag in tags {
        insides.push(inside_of(alloc, &insides, tag)?)?;
    }
    Ok(insides)
}

// Those inside of a tag, where these are inside of the tags before it.
fn inside_of<'a>(alloc: Global, insides: &[Parts<'a>], tag: &'a Tag) -> Result<Parts<'a>, NoMemory>
    ensures { IfOk result (λ inside. inside ≡ spec.tag_parts insides.now tag.now) }
{
    let mut inside = Parts::new(alloc);
    find_in_tag(
        &mut inside,
        insides,
        tag.attrs.as_slice(),
        tag.content.as_slice(),
    )?;
    Ok(inside)
}
