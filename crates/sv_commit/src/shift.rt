// What goes, or goes elsewhere, with what child components show.
ghost use Rattle.std.specs.Prelude.{◌≡◌, ◌∷◌, [], OnOk};
ghost use Rattle.sv_live.specs.declared.live.Live.TheVariants as live;
ghost use Rattle.sv_live.specs.Shown.{name_of};
ghost use Rattle.sv_live.specs.Stands.{Within, Among, Goes, Gone};

use crate::screen::Screen;
use crate::spot::Spot;
use sv_base::NoMemory;
use sv_live::{Live, Named};

/// Takes away what is shown.
#[cycle(remove)]
pub(crate) fn remove_all(screen: &mut Screen, above: Named, lives: &[Live]) -> Result<(), NoMemory>
    requires { Within screen.old.page.tokens (name_of above) lives.now }
    ensures { OnOk result (Gone screen.old screen.new (name_of above) lives.now) }
{
    for live in lives {
        remove_one(screen, above, live)?;
    }
    Ok(())
}

/// Takes one away.
#[cycle(remove)]
pub(crate) fn remove_one(screen: &mut Screen, above: Named, live: &Live) -> Result<(), NoMemory>
    requires { Within screen.old.page.tokens (name_of above) (live.now ∷ []) }
    ensures { OnOk result (Gone screen.old screen.new (name_of above) (live.now ∷ [])) }
{
    match live {
        Live::Text { named, .. } => {
            screen.has_keys();
            screen.remove(named.key)
        }
        Live::Element { named, .. } => {
            screen.has_keys();
            screen.remove(named.key)
        }
        Live::Hole { anchor, parts, .. } => {
            remove_all(screen, above, parts.as_slice())?;
            screen.has_keys();
            screen.remove(*anchor)
        }
    }
}

/// Moves what is shown to a place of its parent.
#[cycle(shift)]
pub(crate) fn move_all(screen: &mut Screen, spot: Spot, lives: &[Live]) -> Result<(), NoMemory>
    requires { Among screen.old.page.tokens (name_of spot.above) spot.end lives.now }
    ensures { OnOk result (Goes screen.old screen.new (name_of spot.above) spot.end lives.now) }
{
    for live in lives {
        move_one(screen, spot, live)?;
    }
    Ok(())
}

/// Moves one.
#[cycle(shift)]
pub(crate) fn move_one(screen: &mut Screen, spot: Spot, live: &Live) -> Result<(), NoMemory>
    requires { Among screen.old.page.tokens (name_of spot.above) spot.end (live.now ∷ []) }
    ensures { OnOk result (Goes screen.old screen.new (name_of spot.above) spot.end (live.now ∷ [])) }
{
    match live {
        Live::Text { named, .. } => {
            screen.has_keys();
            screen.move_before(named.key, spot.end)
        }
        Live::Element { named, .. } => {
            screen.has_keys();
            screen.move_before(named.key, spot.end)
        }
        Live::Hole { anchor, parts, .. } => {
            move_all(screen, spot, parts.as_slice())?;
            screen.has_keys();
            screen.move_before(*anchor, spot.end)
        }
    }
}

/// Takes one away, and lets it go.
pub(crate) fn put_away(screen: &mut Screen, spot: Spot, live: Live) -> Result<(), NoMemory>
    requires { Within screen.old.page.tokens (name_of spot.above) (live ∷ []) }
    ensures { OnOk result (Gone screen.old screen.new (name_of spot.above) (live ∷ [])) }
{
    let gone = remove_one(screen, spot.above, &live);
    drop(live);
    gone
}
