// What a page is to show.
ghost use Rattle.std.specs.Prelude.{◌≡◌, IfOk, [], None};

use crate::attributes::Attributes;
use std::alloc::Global;
use sv_base::{NoMemory, Text};
use sv_list::Items;
use sv_tokens::Typed;

/// What an element shows of its own: its mark, its name, the attributes that the page gives it, and what a user left in it.
#[derive(Drop)]
pub struct Own {
    pub mark: u64,
    pub name: Text,
    pub attributes: Attributes,
    pub typed: Option<Typed>,
}

impl Own {
    /// An element that has nothing but its mark and its name.
    pub fn bare(alloc: Global, mark: u64, name: &Text) -> Result<Own, NoMemory>
        ensures { IfOk result (λ own. own ≡ record { mark = mark; name = name.now; attributes = []; typed = None }) }
    {
        let name = name.share()?;
        Ok(Own {
            mark,
            name,
            attributes: Attributes::new(alloc),
            typed: None,
        })
    }

    /// The same, whose texts are shared.
    pub fn share(&self, alloc: Global) -> Result<Own, NoMemory>
        ensures { IfOk result (λ own. own ≡ self.now) }
    {
        let name = self.name.share()?;
        let attributes = self.attributes.share(alloc)?;
        let typed = share_typed(&self.typed)?;
        Ok(Own {
            mark: self.mark,
            name,
            attributes,
            typed,
        })
    }
}

/// The same state, whose text is shared.
pub fn share_typed(typed: &Option<Typed>) -> Result<Option<Typed>, NoMemory>
    ensures { IfOk result (λ made. made ≡ typed.now) }
{
    match typed {
        Some(typed) => Ok(Some(typed.share()?)),
        None => Ok(None),
    }
}

/// What is to be shown in one place, in order.
pub type Nodes = Items<Node>;

/// What is to be shown. A mark is the number of a text or an element; it stays as long as the place does.
#[derive(Drop)]
pub enum Node {
    Text { mark: u64, text: Text },
    Element { own: Own, parts: Nodes },
    /// A child component stands there; what it shows is not said.
    Hole { place: u64 },
    /// Shows what is inside it.
    Block { parts: Nodes },
}
