// What was not there yet.
ghost use Rattle.std.specs.Prelude.{◌≡◌, ◌≤◌, ◌++◌, ◌∷◌, [], ℕ, IfOk};
ghost use Rattle.sv_live.specs.declared.live.Live.TheVariants as live;
ghost use Rattle.sv_live.specs.Shown.{name_of};
ghost use Rattle.sv_live.specs.Stands.{Stands, Becomes};

use crate::screen::Screen;
use crate::spot::Spot;
use sv_base::{NoMemory, Text};
use sv_list::Items;
use sv_live::{Lives, Named, Own, Walk};

/// An element as it stands.
#[derive(Drop)]
pub(crate) struct Standing {
    pub(crate) named: Named,
    pub(crate) own: Own,
    pub(crate) parts: Lives,
}

/// A child component as it stands.
#[derive(Drop)]
pub(crate) struct StandingHole {
    pub(crate) anchor: u32,
    pub(crate) parts: Lives,
}

/// A new text stands before those that are placed.
pub(crate) fn make_text(
    screen: &mut Screen,
    spot: Spot,
    walk: &Walk,
    text: &Text,
) -> Result<Named, NoMemory>
    requires { Stands screen.old.page (name_of spot.above) spot.end (walk.now.rest ++ walk.now.placed) }
    ensures stands { IfOk result (λ n. (mark : ℕ) → Becomes screen.old screen.new (name_of spot.above) spot.end (walk.now.rest ++ walk.now.placed) (walk.now.rest ++ live.Text mark n text.now ∷ walk.now.placed)) }
    ensures new { IfOk result (λ n. screen.old.page.next ≤ n.serial) }
{
    screen.has_keys();
    screen.make_text(spot.above.key, walk.cursor(spot.end), text)
}

/// A new element, which has nothing but its mark and its name, stands before those that are placed.
pub(crate) fn make_element(
    screen: &mut Screen,
    spot: Spot,
    walk: &Walk,
    own: &Own,
) -> Result<Standing, NoMemory>
    requires { Stands screen.old.page (name_of spot.above) spot.end (walk.now.rest ++ walk.now.placed) }
    ensures stands { IfOk result (λ s. Becomes screen.old screen.new (name_of spot.above) spot.end (walk.now.rest ++ walk.now.placed) (walk.now.rest ++ live.Element s.named s.own s.parts ∷ walk.now.placed)) }
    ensures new { IfOk result (λ s. screen.old.page.next ≤ s.named.serial) }
    ensures name { IfOk result (λ s. s.own.name ≡ own.now.name) }
    ensures empty { IfOk result (λ s. s.parts ≡ []) }
{
    screen.has_keys();
    let named = screen.make_element(spot.above.key, walk.cursor(spot.end), &own.name)?;
    let own = Own::bare(screen.alloc(), own.mark, &own.name)?;
    Ok(Standing {
        named,
        own,
        parts: Items::new(screen.alloc()),
    })
}

/// A new place of a child component, which shows nothing, stands before those that are placed.
pub(crate) fn make_hole(
    screen: &mut Screen,
    spot: Spot,
    walk: &Walk,
) -> Result<StandingHole, NoMemory>
    requires { Stands screen.old.page (name_of spot.above) spot.end (walk.now.rest ++ walk.now.placed) }
    ensures stands { IfOk result (λ s. (place : ℕ) → Becomes screen.old screen.new (name_of spot.above) spot.end (walk.now.rest ++ walk.now.placed) (walk.now.rest ++ live.Hole place s.anchor s.parts ∷ walk.now.placed)) }
    ensures empty { IfOk result (λ s. s.parts ≡ []) }
{
    screen.has_keys();
    let anchor = screen.make_anchor(spot.above.key, walk.cursor(spot.end))?;
    Ok(StandingHole {
        anchor,
        parts: Items::new(screen.alloc()),
    })
}
