// What an element shows of its own.
ghost use Rattle.std.specs.Prelude.{◌≡◌, ◌≢◌, ◌++◌, ◌∷◌, [], ℕ, List, Option, None, IfSome, OnOk};
ghost use Rattle.sv_tokens.specs.Counting.{Has};
ghost use Rattle.sv_tokens.specs.Token.{opens};
ghost use Rattle.sv_tokens.specs.declared.element.Attribute.{Attribute as Attr};
ghost use Rattle.sv_tokens.specs.declared.element.Typed.{Typed as Left};
ghost use Rattle.sv_live.specs.Attributes.{IsAscending, IsAbove};
ghost use Rattle.sv_live.specs.Shown.{name_of, element_of};
ghost use Rattle.sv_live.specs.Stands.{Dresses};
ghost use Rattle.sv_commit.specs.Dress.{with_all, IsBetween};

use crate::screen::Screen;
use sv_base::NoMemory;
use sv_live::{Named, Own};
use sv_tokens::Attribute;

/// An element that shows the first shows the second now.
pub(crate) fn dress(screen: &mut Screen, named: Named, was: &Own, now: &Own) -> Result<(), NoMemory>
    requires stands { Has (opens named.key) screen.old.page.tokens }
    requires below { named.key ≢ 0 }
    requires name { was.now.name ≡ now.now.name }
    ensures { OnOk result (Dresses screen.old screen.new (name_of named) (element_of was.now) (element_of now.now)) }
{
    let old = was.attributes.as_slice();
    let new = now.attributes.as_slice();
    dress_attributes(screen, named, old, new)?;
    screen.set_typed(named.key, &now.typed)
}

// The attributes, of which those in front stay.
fn dress_attributes(
    screen: &mut Screen,
    named: Named,
    was: &[Attribute],
    now: &[Attribute],
) -> Result<(), NoMemory>
    requires stands { Has (opens named.key) screen.old.page.tokens }
    requires below { named.key ≢ 0 }
    requires was { IsAscending was.now }
    requires now { IsAscending now.now }
    ensures stands { OnOk result (Has (opens named.key) screen.new.page.tokens) }
    ensures dressed { (front : List Attr) (name : List ℕ) (typed : Option Left) → IsBetween front was.now now.now
        → OnOk result (Dresses screen.old screen.new (name_of named) (with_all name (front ++ was.now) typed) (with_all name (front ++ now.now) typed)) }
{
    let Some((old, rest)) = first_of(was) else {
        let Some((new, later)) = first_of(now) else {
            return Ok(());
        };
        screen.set_attr(named.key, new)?;
        return dress_attributes(screen, named, was, later);
    };
    let Some((new, later)) = first_of(now) else {
        screen.drop_attr(named.key, old.slot)?;
        return dress_attributes(screen, named, rest, now);
    };
    if old.slot < new.slot {
        screen.drop_attr(named.key, old.slot)?;
        return dress_attributes(screen, named, rest, now);
    }
    screen.set_attr(named.key, new)?;
    if old.slot == new.slot {
        return dress_attributes(screen, named, rest, later);
    }
    dress_attributes(screen, named, was, later)
}

// The first of them, and the others.
fn first_of<'a>(list: &'a [Attribute]) -> Option<(&'a Attribute, &'a [Attribute])>
    requires { IsAscending list.now }
    ensures some { IfSome result (λ r. (list.now ≡ r.0.now ∷ r.1.now) × IsAbove r.0.now.slot r.1.now × IsAscending r.1.now) }
    ensures none { result ≡ None → list.now ≡ [] }
{
    list.split_first()
}
