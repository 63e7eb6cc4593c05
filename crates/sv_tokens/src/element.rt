// What an element shows of its own.
ghost use Rattle.std.specs.List.{list_any};
ghost use Rattle.std.specs.Prelude.{◌≡◌, ◌↔◌, IfOk, IsTrue};
ghost use Rattle.sv_tokens.specs.Token.{is_id, is_text};

use sv_base::{NoMemory, Text};

/// What an attribute shows: ` name`, or ` name="text"`.
#[derive(Drop)]
pub enum Attr {
    Flag,
    Text(Text),
}

impl Attr {
    /// The same value, whose text is shared.
    pub fn share(&self) -> Result<Attr, NoMemory>
        ensures { IfOk result (λ attr. attr ≡ self.now) }
    {
        match self {
            Attr::Flag => Ok(Attr::Flag),
            Attr::Text(text) => Ok(Attr::Text(text.share()?)),
        }
    }

    /// Whether both show the same.
    pub fn is(&self, other: &Attr) -> bool
        ensures { IsTrue result ↔ (self.now ≡ other.now) }
    {
        match (self, other) {
            (Attr::Flag, Attr::Flag) => true,
            (Attr::Text(text), Attr::Text(other)) => text.as_str() == other.as_str(),
            _ => false,
        }
    }

    // Whether it shows this text.
    fn is_text(&self, text: &str) -> bool
        ensures { result ≡ is_text text.now self.now }
    {
        match self {
            Attr::Flag => false,
            Attr::Text(shown) => shown.as_str() == text,
        }
    }
}

/// An attribute of an element. The attributes of an element stand by slot, which is their place in the
/// template, and no slot has two.
#[derive(Drop)]
pub struct Attribute {
    pub slot: u16,
    pub name: Text,
    pub value: Attr,
}

impl Attribute {
    // Whether it is that `id`.
    fn is_id(&self, id: &str) -> bool
        ensures { result ≡ is_id id.now self.now }
    {
        self.name.as_str() == "id" && self.value.is_text(id)
    }
}

/// Whether an element with these attributes shows that `id`.
pub fn shows_id(attributes: &[Attribute], id: &str) -> bool
    ensures { result ≡ list_any (is_id id.now) attributes.now }
{
    attributes.iter().any(|attribute| attribute.is_id(id))
}

/// What a user left in an input, laid over the attributes that the page gives it: the text of a text field,
/// or whether a box is checked.
#[derive(Drop)]
pub enum Typed {
    Text(Text),
    Checked(bool),
}

impl Typed {
    /// The same state, whose text is shared.
    pub fn share(&self) -> Result<Typed, NoMemory>
        ensures { IfOk result (λ typed. typed ≡ self.now) }
    {
        match self {
            Typed::Text(text) => Ok(Typed::Text(text.share()?)),
            Typed::Checked(checked) => Ok(Typed::Checked(*checked)),
        }
    }

    /// Whether both are the same state.
    pub fn is(&self, other: &Typed) -> bool
        ensures { IsTrue result ↔ (self.now ≡ other.now) }
    {
        match (self, other) {
            (Typed::Text(text), Typed::Text(other)) => text.as_str() == other.as_str(),
            (Typed::Checked(checked), Typed::Checked(other)) => *checked == *other,
            _ => false,
        }
    }
}
