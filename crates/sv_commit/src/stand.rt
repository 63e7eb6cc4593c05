// A node that stands before those that are placed: the one in which its mark stood, or a new one.
ghost use Rattle.std.specs.Prelude.{◌≡◌, ℕ, List, ◌++◌, ◌∷◌, [], IfOk, IfErr, IfSome, OnOk, None, Some};
ghost use Rattle.sv_live.specs.declared.live.Live.TheVariants as live;
ghost use Rattle.sv_live.specs.Kept.{IsNamed, IsSeated};
ghost use Rattle.sv_live.specs.Known.{by_mark, by_place, known, text_node, element_node, inside, seat};
ghost use Rattle.sv_live.specs.Shown.{name_of};
ghost use Rattle.sv_live.specs.Stands.{Stands, Becomes};
ghost use Rattle.sv_live.specs.Walk.{KeepsOthers};

use crate::make::{Standing, StandingHole, make_element, make_hole, make_text};
use crate::screen::Screen;
use crate::shift::{move_one, put_away};
use crate::spot::Spot;
use sv_base::{NoMemory, Text};
use sv_live::{Live, Named, Own, Walk, by_mark, by_place};

// Takes the one with that number out, and moves it before those that are placed. The last one stands there.
fn bring(
    screen: &mut Screen,
    spot: Spot,
    walk: &mut Walk,
    number: u128,
) -> Result<Option<Live>, NoMemory>
    requires { Stands screen.old.page (name_of spot.above) spot.end (walk.old.rest ++ walk.old.placed) }
    ensures brought { IfOk result (λ t. IfSome t (λ l. Becomes screen.old screen.new (name_of spot.above) spot.end (walk.old.rest ++ walk.old.placed) (walk.new.rest ++ l ∷ walk.new.placed))) }
    ensures found { IfOk result (λ t. t ≡ known number walk.old.rest) }
    ensures others { KeepsOthers number walk.old.rest walk.new.rest }
    ensures none { IfOk result (λ t. t ≡ None → (screen.new ≡ screen.old) × (walk.new.rest ≡ walk.old.rest)) }
    ensures placed { walk.new.placed ≡ walk.old.placed }
{
    let Some(taken) = walk.take(number) else {
        return Ok(None);
    };
    if taken.last {
        return Ok(Some(taken.live));
    }
    let end = walk.cursor(spot.end);
    let before = Spot {
        above: spot.above,
        end,
    };
    move_one(screen, before, &taken.live)?;
    Ok(Some(taken.live))
}

/// The text with that mark stands before those that are placed, and shows that.
pub(crate) fn stand_text(
    screen: &mut Screen,
    spot: Spot,
    walk: &mut Walk,
    mark: u64,
    text: &Text,
) -> Result<Named, NoMemory>
    requires { Stands screen.old.page (name_of spot.above) spot.end (walk.old.rest ++ walk.old.placed) }
    ensures stands { IfOk result (λ n. Becomes screen.old screen.new (name_of spot.above) spot.end (walk.old.rest ++ walk.old.placed) (walk.new.rest ++ live.Text mark n text.now ∷ walk.new.placed)) }
    ensures named { IfOk result (λ n. IsNamed screen.old.page.next (text_node (known (by_mark mark) walk.old.rest)) n) }
    ensures others { KeepsOthers (by_mark mark) walk.old.rest walk.new.rest }
    ensures placed { walk.new.placed ≡ walk.old.placed }
{
    let Some(live) = bring(screen, spot, walk, by_mark(mark))? else {
        return make_text(screen, spot, walk, text);
    };
    match as_text(live) {
        Ok(named) => {
            screen.set_text(named.key, text)?;
            Ok(named)
        }
        Err(other) => {
            put_away(screen, spot, other)?;
            make_text(screen, spot, walk, text)
        }
    }
}

// The node of a text, if it is one.
fn as_text(shown: Live) -> Result<Named, Live>
    ensures text { IfOk result (λ n. (mark : ℕ) × (text : List ℕ) × (shown ≡ live.Text mark n text)) }
    ensures other { IfErr result (λ other. (other ≡ shown) × (text_node (Some shown) ≡ None)) }
{
    match shown {
        Live::Text { named, .. } => Ok(named),
        other => Err(other),
    }
}

/// The element with that mark and that name stands before those that are placed, as it was or new.
pub(crate) fn stand_element(
    screen: &mut Screen,
    spot: Spot,
    walk: &mut Walk,
    own: &Own,
) -> Result<Standing, NoMemory>
    requires { Stands screen.old.page (name_of spot.above) spot.end (walk.old.rest ++ walk.old.placed) }
    ensures stands { IfOk result (λ s. Becomes screen.old screen.new (name_of spot.above) spot.end (walk.old.rest ++ walk.old.placed) (walk.new.rest ++ live.Element s.named s.own s.parts ∷ walk.new.placed)) }
    ensures name { IfOk result (λ s. s.own.name ≡ own.now.name) }
    ensures named { IfOk result (λ s. IsNamed screen.old.page.next (element_node own.now.name (known (by_mark own.now.mark) walk.old.rest)) s.named) }
    ensures inside { IfOk result (λ s. s.parts ≡ inside own.now.name (known (by_mark own.now.mark) walk.old.rest)) }
    ensures others { KeepsOthers (by_mark own.now.mark) walk.old.rest walk.new.rest }
    ensures placed { walk.new.placed ≡ walk.old.placed }
{
    let Some(live) = bring(screen, spot, walk, by_mark(own.mark))? else {
        return make_element(screen, spot, walk, own);
    };
    match as_element(live, &own.name) {
        Ok(standing) => Ok(standing),
        Err(other) => {
            put_away(screen, spot, other)?;
            make_element(screen, spot, walk, own)
        }
    }
}

// The element as it stands, if it is one and has that name.
fn as_element(shown: Live, name: &Text) -> Result<Standing, Live>
    ensures element { IfOk result (λ s. (shown ≡ live.Element s.named s.own s.parts) × (s.own.name ≡ name.now)) }
    ensures other { IfErr result (λ other. (other ≡ shown) × (element_node name.now (Some shown) ≡ None) × (inside name.now (Some shown) ≡ [])) }
{
    match shown {
        Live::Element { named, own, parts } => {
            if own.name.as_str() == name.as_str() {
                Ok(Standing { named, own, parts })
            } else {
                Err(Live::Element { named, own, parts })
            }
        }
        other => Err(other),
    }
}

/// The child component at that place stands before those that are placed, as it was or new.
pub(crate) fn stand_hole(
    screen: &mut Screen,
    spot: Spot,
    walk: &mut Walk,
    place: u64,
) -> Result<StandingHole, NoMemory>
    requires { Stands screen.old.page (name_of spot.above) spot.end (walk.old.rest ++ walk.old.placed) }
    ensures stands { IfOk result (λ s. Becomes screen.old screen.new (name_of spot.above) spot.end (walk.old.rest ++ walk.old.placed) (walk.new.rest ++ live.Hole place s.anchor s.parts ∷ walk.new.placed)) }
    ensures seated { IfOk result (λ s. IsSeated (seat (known (by_place place) walk.old.rest)) (record { anchor = s.anchor; parts = s.parts })) }
    ensures others { KeepsOthers (by_place place) walk.old.rest walk.new.rest }
    ensures placed { walk.new.placed ≡ walk.old.placed }
{
    let Some(live) = bring(screen, spot, walk, by_place(place))? else {
        return make_hole(screen, spot, walk);
    };
    match live {
        Live::Hole { anchor, parts, .. } => Ok(StandingHole { anchor, parts }),
        Live::Text { .. } | Live::Element { .. } => unreachable!(),
    }
}
