// A token of a page: an element begins and ends, and a text is one token.
ghost use Rattle.std.specs.Prelude.{◌≡◌, ◌++◌, ◌∷◌, [], OnOk, OnErr};
ghost use Rattle.sv_tokens.specs.Seen.{Start as start_seen, Words as words_seen, End as end_seen, starts, ends, is_child_of, follows};
ghost use Rattle.sv_tokens.specs.Edit.{with_attribute, without_slot, with_typed};
ghost use Rattle.sv_tokens.specs.Replay.{bare, parent_in, with_words, with_start};
ghost use Rattle.sv_nodes.specs.Cells.{element_of};
ghost use Rattle.std.specs.List.{list_any};
ghost use Rattle.sv_watch.specs.Fits.{has_slot, is_at, is_holder, is_input, is_words};
ghost use Rattle.sv_watch.specs.Mirror.{element_in, piece_html};

use std::alloc::Global;
use std::marker::Model;
use sv_base::{NoMemory, Text};
use sv_html::{Tag, push_end, push_start, push_text};
use sv_nodes::{Element, drop_attribute, put_attribute};
use sv_tokens::{Attribute, Typed};

/// A token, as it is seen.
#[derive(Drop)]
pub struct Piece {
    form: Form,
}

#[derive(Drop)]
enum Form {
    Start {
        serial: u64,
        parent: u64,
        element: Element,
    },
    Words {
        serial: u64,
        parent: u64,
        text: Text,
    },
    End {
        serial: u64,
        name: Text,
    },
}

impl Model for Piece {
    ghost use Rattle.sv_tokens.specs.Seen.{Seen};
    ghost use Rattle.sv_watch.specs.Piece.{seen_of};

    ghost Value = { Seen };

    ghost view = { λ piece. seen_of piece.form };
}

impl Piece {
    /// The beginning of an element that has nothing but its name.
    pub fn start(alloc: Global, serial: u64, parent: u64, name: Text) -> Piece
        ensures { result ≡ start_seen serial parent (bare name) }
    {
        let element = Element {
            name,
            attributes: Vec::new(alloc),
            typed: None,
        };
        Piece {
            form: Form::Start {
                serial,
                parent,
                element,
            },
        }
    }

    /// A text.
    pub fn words(serial: u64, parent: u64, text: Text) -> Piece
        ensures { result ≡ words_seen serial parent text }
    {
        Piece {
            form: Form::Words {
                serial,
                parent,
                text,
            },
        }
    }

    /// The end of an element.
    pub fn end(serial: u64, name: Text) -> Piece
        ensures { result ≡ end_seen serial name }
    {
        Piece {
            form: Form::End { serial, name },
        }
    }

    /// Whether it is the first token of that node.
    pub fn starts(&self, node: u64) -> bool
        ensures { result ≡ starts node self.now }
    {
        match &self.form {
            Form::Start { serial, .. } => *serial == node,
            Form::Words { serial, .. } => *serial == node,
            Form::End { .. } => false,
        }
    }

    /// Whether it is the last token of that element.
    pub fn ends(&self, node: u64) -> bool
        ensures { result ≡ ends node self.now }
    {
        match &self.form {
            Form::End { serial, .. } => *serial == node,
            _ => false,
        }
    }

    /// Whether it follows the place before that child of the parent, or at its end where `before` is 0.
    pub fn follows(&self, parent: u64, before: u64) -> bool
        ensures { result ≡ follows parent before self.now }
    {
        if before == 0 {
            return self.ends(parent);
        }
        self.is_child_of(parent, before)
    }

    /// Whether it is the first token of that child of the parent.
    pub fn is_child_of(&self, above: u64, node: u64) -> bool
        ensures { result ≡ is_child_of above node self.now }
    {
        match &self.form {
            Form::Start { serial, parent, .. } => *serial == node && *parent == above,
            Form::Words { serial, parent, .. } => *serial == node && *parent == above,
            Form::End { .. } => false,
        }
    }

    /// Whether it begins that element, or the page, whose number is 0.
    pub fn is_holder(&self, node: u64) -> bool
        ensures { result ≡ is_holder node self.now }
    {
        match &self.form {
            Form::Start { serial, .. } => *serial == node,
            _ => false,
        }
    }

    /// Whether it is that text.
    pub fn is_words(&self, node: u64) -> bool
        ensures { result ≡ is_words node self.now }
    {
        match &self.form {
            Form::Words { serial, .. } => *serial == node,
            _ => false,
        }
    }

    /// Whether it begins that element, which has an attribute at the slot.
    pub fn has_slot(&self, node: u64, slot: u16) -> bool
        ensures { result ≡ has_slot node slot self.now }
    {
        match &self.form {
            Form::Start {
                serial,
                element,
                ..
            } => *serial == node && has_attribute(&element.attributes, slot),
            _ => false,
        }
    }

    /// Whether it begins that element, which is an `input`.
    pub fn is_input(&self, node: u64) -> bool
        ensures { result ≡ is_input node self.now }
    {
        match &self.form {
            Form::Start {
                serial,
                element,
                ..
            } => *serial == node && element.name.as_str() == "input",
            _ => false,
        }
    }

    /// The parent of the node that it begins.
    pub fn parent(&self) -> u64
        ensures { result ≡ parent_in (self.now ∷ []) }
    {
        match &self.form {
            Form::Start { parent, .. } => *parent,
            Form::Words { parent, .. } => *parent,
            Form::End { .. } => 0,
        }
    }

    /// The element that it begins.
    pub fn element(&self) -> Option<u64>
        ensures { result ≡ element_in self.now }
    {
        match &self.form {
            Form::Start { serial, .. } => Some(*serial),
            _ => None,
        }
    }

    /// Gives a text other words.
    pub fn set_words(&mut self, words: Text)
        ensures { self.new ≡ with_words words self.old }
    {
        if let Form::Words { text, .. } = &mut self.form {
            *text = words;
        }
    }

    /// Gives an element an attribute, in the place of the one at its slot.
    pub fn set_attribute(&mut self, attribute: Attribute) -> Result<(), NoMemory>
        ensures ok { OnOk result (self.new ≡ with_start (with_attribute attribute) self.old) }
        ensures err { OnErr result (self.new ≡ self.old) }
    {
        if let Form::Start { element, .. } = &mut self.form {
            put_attribute(&mut element.attributes, attribute)?;
        }
        Ok(())
    }

    /// Takes the attribute at a slot from an element.
    pub fn drop_attribute(&mut self, slot: u16)
        ensures { self.new ≡ with_start (without_slot slot) self.old }
    {
        if let Form::Start { element, .. } = &mut self.form {
            drop_attribute(&mut element.attributes, slot);
        }
    }

    /// Lays what was typed over an element, or takes it away.
    pub fn set_typed(&mut self, typed: Option<Typed>)
        ensures { self.new ≡ with_start (with_typed typed) self.old }
    {
        if let Form::Start { element, .. } = &mut self.form {
            element.typed = typed;
        }
    }

    /// Puts its text behind `out`.
    pub fn print(&self, alloc: Global, out: &mut Vec<u8>) -> Result<(), NoMemory>
        ensures { OnOk result (out.new.items ≡ out.old.items ++ piece_html self.now) }
    {
        match &self.form {
            Form::Start {
                serial,
                element,
                ..
            } => print_start(alloc, out, *serial, element),
            Form::Words { text, .. } => push_text(alloc, out, None, text.as_str()),
            Form::End { serial, name } => print_end(out, *serial, name),
        }
    }
}

// Whether one of them is at the slot.
fn has_attribute(attributes: &[Attribute], slot: u16) -> bool
    ensures { result ≡ list_any (is_at slot) attributes.now }
{
    attributes.iter().any(|attribute| attribute.slot == slot)
}

// The tag that begins an element. The page itself has none.
fn print_start(
    alloc: Global,
    out: &mut Vec<u8>,
    serial: u64,
    element: &Element,
) -> Result<(), NoMemory>
    ensures { OnOk result (out.new.items ≡ out.old.items ++ piece_html (start_seen serial 0 (element_of element.now))) }
{
    if serial == 0 {
        return Ok(());
    }
    let tag = Tag {
        number: None,
        name: element.name.as_str(),
        attributes: &element.attributes,
        typed: &element.typed,
    };
    push_start(alloc, out, tag)
}

// The tag that ends an element. The page itself has none.
fn print_end(out: &mut Vec<u8>, serial: u64, name: &Text) -> Result<(), NoMemory>
    ensures { OnOk result (out.new.items ≡ out.old.items ++ piece_html (end_seen serial name.now)) }
{
    if serial == 0 {
        return Ok(());
    }
    push_end(out, name.as_str())
}
