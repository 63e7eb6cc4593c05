// The attributes of an element, with what was typed laid over them.
ghost use Rattle.std.specs.Prelude.{◌≡◌, ◌≤◌, ◌++◌, ◌∷◌, ◌+◌, OnOk, drop, take, length, not};
ghost use Rattle.std.specs.List.{prefix_len};
ghost use Rattle.std.specs.Str.{bytes_eq};
ghost use Rattle.sv_tokens.specs.declared.element.Attr.TheVariants.{Flag, Text as text_attr};
ghost use Rattle.sv_html.specs.Html.{value_html, attribute_html, attributes_html, lay, strip, laid};

use crate::escape::push_value;
use sv_base::{NoMemory, Text};
use sv_tokens::{Attr, Attribute, Typed};

// The attributes with what was typed.
pub(crate) fn push_laid(
    out: &mut Vec<u8>,
    attributes: &[Attribute],
    typed: &Option<Typed>,
) -> Result<(), NoMemory>
    ensures { OnOk result (out.new.items ≡ out.old.items ++ attributes_html (laid typed.now attributes.now)) }
{
    match typed {
        None => push_attributes(out, attributes),
        Some(Typed::Text(text)) => push_with_text(out, attributes, "value", text),
        Some(Typed::Checked(true)) => push_with_flag(out, attributes, "checked"),
        Some(Typed::Checked(false)) => push_without(out, attributes, "checked"),
    }
}

fn push_with_text(
    out: &mut Vec<u8>,
    attributes: &[Attribute],
    name: &str,
    text: &Text,
) -> Result<(), NoMemory>
    ensures { OnOk result (out.new.items ≡ out.old.items ++ attributes_html (lay name.now (text_attr text.now) attributes.now)) }
{
    let at = place_of_name(attributes, name);
    push_attributes(out, front(attributes, at))?;
    push_pair(out, name, text)?;
    push_attributes(out, behind(attributes, at))?;
    Ok(())
}

fn push_with_flag(out: &mut Vec<u8>, attributes: &[Attribute], name: &str) -> Result<(), NoMemory>
    ensures { OnOk result (out.new.items ≡ out.old.items ++ attributes_html (lay name.now Flag attributes.now)) }
{
    let at = place_of_name(attributes, name);
    push_attributes(out, front(attributes, at))?;
    push_flag(out, name)?;
    push_attributes(out, behind(attributes, at))?;
    Ok(())
}

fn push_without(out: &mut Vec<u8>, attributes: &[Attribute], name: &str) -> Result<(), NoMemory>
    ensures { OnOk result (out.new.items ≡ out.old.items ++ attributes_html (strip name.now attributes.now)) }
{
    let at = place_of_name(attributes, name);
    push_attributes(out, front(attributes, at))?;
    push_attributes(out, behind(attributes, at))?;
    Ok(())
}

// Where the first attribute of that name stands, or the end.
fn place_of_name(attributes: &[Attribute], name: &str) -> usize
    ensures count { result ≡ prefix_len (λ a. not (bytes_eq a.name name.now)) attributes.now }
    ensures bound { result ≤ length attributes.now }
{
    attributes
        .iter()
        .take_while(|a| a.name.as_str() != name)
        .count()
}

// The attributes before a place.
fn front(attributes: &[Attribute], at: usize) -> &[Attribute]
    requires { at ≤ length attributes.now }
    ensures { result.now ≡ take at attributes.now }
{
    &attributes[..at]
}

// The attributes behind one.
fn behind(attributes: &[Attribute], at: usize) -> &[Attribute]
    requires { at ≤ length attributes.now }
    ensures { result.now ≡ drop (at + 1) attributes.now }
{
    if at < attributes.len() {
        &attributes[at + 1..]
    } else {
        &attributes[at..]
    }
}

fn push_attributes(out: &mut Vec<u8>, attributes: &[Attribute]) -> Result<(), NoMemory>
    ensures { OnOk result (out.new.items ≡ out.old.items ++ attributes_html attributes.now) }
{
    for attribute in attributes {
        push_attribute(out, attribute)?;
    }
    Ok(())
}

fn push_attribute(out: &mut Vec<u8>, attribute: &Attribute) -> Result<(), NoMemory>
    ensures { OnOk result (out.new.items ≡ out.old.items ++ attribute_html attribute.now.name attribute.now.value) }
{
    match &attribute.value {
        Attr::Flag => push_flag(out, attribute.name.as_str()),
        Attr::Text(text) => push_pair(out, attribute.name.as_str(), text),
    }
}

fn push_flag(out: &mut Vec<u8>, name: &str) -> Result<(), NoMemory>
    ensures { OnOk result (out.new.items ≡ out.old.items ++ attribute_html name.now Flag) }
{
    push_name(out, name)?;
    Ok(())
}

fn push_pair(out: &mut Vec<u8>, name: &str, text: &Text) -> Result<(), NoMemory>
    ensures { OnOk result (out.new.items ≡ out.old.items ++ attribute_html name.now (text_attr text.now)) }
{
    push_name(out, name)?;
    push_quoted(out, text)?;
    Ok(())
}

// A space and the name.
fn push_name(out: &mut Vec<u8>, name: &str) -> Result<(), NoMemory>
    ensures { OnOk result (out.new.items ≡ out.old.items ++ (32 ∷ name.now)) }
{
    out.push(b' ')?;
    out.extend_from_slice(name.as_bytes())?;
    Ok(())
}

// The text in quotes, behind `=`.
fn push_quoted(out: &mut Vec<u8>, text: &Text) -> Result<(), NoMemory>
    ensures { OnOk result (out.new.items ≡ out.old.items ++ value_html (text_attr text.now)) }
{
    out.extend_from_slice(b"=\"")?;
    push_value(out, text.as_str().as_bytes())?;
    out.push(b'"')?;
    Ok(())
}
