// The expressions of fragments.
ghost use Rattle.std.specs.Prelude.{◌≡◌, ◌∷◌, ◌++◌, map, OnOk};
ghost use Rattle.std.specs.Option.{option_to_list};
ghost use Rattle.sv_listing.specs.Parts as spec;

use crate::attributes::find_in_attrs;
use crate::found::Parts;
use sv_base::NoMemory;
use sv_code::{Frag, FragArm, FragAttr, Part};

/// Adds the expressions of fragments to those that were found, where `insides` are those inside of component tags by number.
#[cycle(walk)]
pub(crate) fn find_in_frags<'a>(
    found: &mut Parts<'a>,
    insides: &[Parts<'a>],
    frags: &'a [Frag],
) -> Result<(), NoMemory>
    ensures { OnOk result (found.new ≡ found.old ++ spec.parts insides.now frags.now) }
{
    for frag in frags {
        find_in_frag(found, insides, frag)?;
    }
    Ok(())
}

#[cycle(walk)]
fn find_in_frag<'a>(
    found: &mut Parts<'a>,
    insides: &[Parts<'a>],
    frag: &'a Frag,
) -> Result<(), NoMemory>
    ensures { OnOk result (found.new ≡ found.old ++ spec.frag_parts insides.now frag.now) }
{
    match frag {
        Frag::Text(_) => Ok(()),
        Frag::Show(part) => found.push(part),
        Frag::Element {
            attrs,
            children: content,
            ..
        }
        | Frag::Slot {
            attrs,
            own: content,
            ..
        } => find_in_tag(found, insides, attrs.as_slice(), content.as_slice()),
        Frag::Tag { tag, .. } => find_inside(found, insides, *tag),
        Frag::Named { node, .. } => find_in_frag(found, insides, node.get()),
        Frag::If { arms, last } => {
            find_in_arms(found, insides, arms.as_slice())?;
            match last {
                Some(last) => find_in_frags(found, insides, last.as_slice()),
                None => Ok(()),
            }
        }
        Frag::Each {
            list,
            key,
            body,
            none,
            ..
        } => {
            find_in_rows(found, insides, list, key, body.as_slice())?;
            match none {
                Some(none) => find_in_frags(found, insides, none.as_slice()),
                None => Ok(()),
            }
        }
        Frag::Key { value, body } => find_headed(found, insides, value, body.as_slice()),
    }
}

/// Adds the expressions of a tag: those of its attributes, and then of its content.
#[cycle(walk)]
pub(crate) fn find_in_tag<'a>(
    found: &mut Parts<'a>,
    insides: &[Parts<'a>],
    attrs: &'a [FragAttr],
    content: &'a [Frag],
) -> Result<(), NoMemory>
    ensures { OnOk result (found.new ≡ found.old ++ (spec.in_attrs attrs.now ++ spec.parts insides.now content.now)) }
{
    find_in_attrs(found, attrs)?;
    find_in_frags(found, insides, content)
}

// Those inside of the component's tag with a number.
fn find_inside<'a>(found: &mut Parts<'a>, insides: &[Parts<'a>], tag: u32) -> Result<(), NoMemory>
    ensures { OnOk result (found.new ≡ found.old ++ spec.inside_at insides.now tag) }
{
    match insides.get(tag as usize) {
        Some(inside) => found.extend(inside),
        None => Ok(()),
    }
}

// Content behind the expression of its head.
#[cycle(walk)]
fn find_headed<'a>(
    found: &mut Parts<'a>,
    insides: &[Parts<'a>],
    head: &'a Part,
    body: &'a [Frag],
) -> Result<(), NoMemory>
    ensures { OnOk result (found.new ≡ found.old ++ head.now ∷ spec.parts insides.now body.now) }
{
    found.push(head)?;
    find_in_frags(found, insides, body)
}

#[cycle(walk)]
fn find_in_arms<'a>(
    found: &mut Parts<'a>,
    insides: &[Parts<'a>],
    arms: &'a [FragArm],
) -> Result<(), NoMemory>
    ensures { OnOk result (found.new ≡ found.old ++ spec.together (map (spec.arm_parts insides.now) arms.now)) }
{
    for arm in arms {
        find_headed(found, insides, &arm.test, arm.body.as_slice())?;
    }
    Ok(())
}

// A list with its rows.
#[cycle(walk)]
fn find_in_rows<'a>(
    found: &mut Parts<'a>,
    insides: &[Parts<'a>],
    list: &'a Part,
    key: &'a Option<Part>,
    body: &'a [Frag],
) -> Result<(), NoMemory>
    ensures { OnOk result (found.new ≡ found.old ++ spec.in_rows list.now key.now (spec.parts insides.now body.now)) }
{
    found.push(list)?;
    find_key(found, key)?;
    find_in_frags(found, insides, body)
}

fn find_key<'a>(found: &mut Parts<'a>, key: &'a Option<Part>) -> Result<(), NoMemory>
    ensures { OnOk result (found.new ≡ found.old ++ option_to_list key.now) }
{
    match key {
        Some(key) => found.push(key),
        None => Ok(()),
    }
}
