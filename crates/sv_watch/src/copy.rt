// Copies of changes, whose texts are shared.
ghost use Rattle.std.specs.Prelude.{◌≡◌, IfOk};

use sv_base::NoMemory;
use sv_tokens::{Change, Typed, What};

/// The same change, whose texts are shared.
pub fn copy_of(change: &Change) -> Result<Change, NoMemory>
    ensures { IfOk result (λ copy. copy ≡ change.now) }
{
    match change {
        Change::Make {
            serial,
            parent,
            before,
            what,
        } => Ok(Change::Make {
            serial: *serial,
            parent: *parent,
            before: *before,
            what: what_of(what)?,
        }),
        Change::SetText { serial, text } => Ok(Change::SetText {
            serial: *serial,
            text: text.share()?,
        }),
        Change::SetAttr {
            serial,
            slot,
            name,
            attr,
        } => Ok(Change::SetAttr {
            serial: *serial,
            slot: *slot,
            name: name.share()?,
            attr: attr.share()?,
        }),
        Change::DropAttr { serial, slot } => Ok(Change::DropAttr {
            serial: *serial,
            slot: *slot,
        }),
        Change::SetTyped { serial, typed } => Ok(Change::SetTyped {
            serial: *serial,
            typed: typed_of(typed)?,
        }),
        Change::Move { serial, before } => Ok(Change::Move {
            serial: *serial,
            before: *before,
        }),
        Change::Remove { serial } => Ok(Change::Remove { serial: *serial }),
    }
}

// The same kind of node.
fn what_of(what: &What) -> Result<What, NoMemory>
    ensures { IfOk result (λ copy. copy ≡ what.now) }
{
    match what {
        What::Element(name) => Ok(What::Element(name.share()?)),
        What::Text(text) => Ok(What::Text(text.share()?)),
    }
}

/// The same typed state, or none.
pub fn typed_of(typed: &Option<Typed>) -> Result<Option<Typed>, NoMemory>
    ensures { IfOk result (λ copy. copy ≡ typed.now) }
{
    match typed {
        Some(typed) => Ok(Some(typed.share()?)),
        None => Ok(None),
    }
}
