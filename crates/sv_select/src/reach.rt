// How far a selector is met on the way to an element.
ghost use Rattle.std.specs.Prelude.{◌≡◌, true, false, IfOk};
ghost use Rattle.sv_select.specs.Reach as spec;

use crate::fits::fits;
use crate::selector::{Combinator, Link};
use std::alloc::Global;
use sv_base::NoMemory;
use sv_document::Element;

// What is known of the links before one on a way: whether its last element meets them, and whether it or one round it does.
#[derive(Clone, Copy)]
pub(crate) struct Reach {
    pub here: bool,
    pub round: bool,
}

impl Reach {
    // Whether an element inside stands so to one that meets them.
    fn leads(self, combinator: Combinator) -> bool
        ensures { result ≡ spec.leads combinator self }
    {
        match combinator {
            Combinator::Child => self.here,
            Combinator::Descendant => self.round,
        }
    }

    // What is known inside an element that meets them or not.
    fn inside(self, here: bool) -> Reach
        ensures { result ≡ spec.inside here self }
    {
        Reach {
            here,
            round: here || self.round,
        }
    }
}

// What is known inside an element of the links before each one, and whether the element meets all.
#[derive(Drop)]
pub(crate) struct Inside {
    pub reached: Vec<Reach>,
    pub is_match: bool,
}

// What is known on the page itself.
pub(crate) fn on_page(alloc: Global, links: &[Link]) -> Result<Vec<Reach>, NoMemory>
    ensures { IfOk result (λ reached. reached.items ≡ spec.on_page true links.now) }
{
    let mut reached = Vec::new(alloc);
    let mut here = true;
    for _link in links {
        reached.push(Reach { here, round: here })?;
        here = false;
    }
    Ok(reached)
}

// What is known inside an element.
pub(crate) fn enter(
    alloc: Global,
    links: &[Link],
    outer: &[Reach],
    element: &Element,
) -> Result<Inside, NoMemory>
    ensures reached { IfOk result (λ inside. inside.reached.items ≡ spec.entered false links.now element.now outer.now) }
    ensures is_match { IfOk result (λ inside. inside.is_match ≡ spec.ends false links.now element.now outer.now) }
{
    let mut reached = Vec::new(alloc);
    let mut here = false;
    let mut left = outer;
    for link in links {
        let Some((round, more)) = left.split_first() else {
            break;
        };
        reached.push(round.inside(here))?;
        here = round.leads(link.combinator) && fits(&link.compound, element);
        left = more;
    }
    Ok(Inside {
        reached,
        is_match: here,
    })
}
