// Where an instance stands.
ghost use Rattle.std.specs.Prelude.{◌≡◌, option_map};
ghost use Rattle.sv_instance.specs.Place.{inst_number, standing_of};

use std::marker::Model;
use sv_value::Inst;

/// The tag that made an instance: its number in the program, and the instance in whose markup it is written.
#[derive(Clone, Copy, PartialEq, Eq, Debug)]
pub struct Standing {
    pub tag: u32,
    pub owner: Inst,
}

/// Where an instance stands: its component, how deep it is, the root being 1, its parent, and its tag; the root has neither.
#[derive(Drop)]
pub struct Place {
    component: u32,
    depth: u32,
    parent: Option<Inst>,
    standing: Option<Standing>,
}

impl Model for Place {
    ghost use Rattle.sv_instance.specs.Standing.{Place, place_code};

    ghost Value = { Place };

    ghost coded = { place_code };

    ghost use Rattle.std.specs.Prelude.{option_map};
    ghost use Rattle.sv_instance.specs.Place.{inst_number, standing_of};

    ghost view = { λ p. record { component = p.component; depth = p.depth; parent = option_map inst_number p.parent; standing = option_map standing_of p.standing } };
}

impl Place {
    /// That place.
    pub fn new(
        component: u32,
        depth: u32,
        parent: Option<Inst>,
        standing: Option<Standing>,
    ) -> Place
        ensures { result ≡ record { component = component; depth = depth; parent = option_map inst_number parent; standing = option_map standing_of standing } }
    {
        Place {
            component,
            depth,
            parent,
            standing,
        }
    }

    /// Its component's number.
    pub fn component(&self) -> u32
        ensures { result ≡ self.now.component }
    {
        self.component
    }

    /// How deep it is: 1 for the root, and for another one more than its parent.
    pub fn depth(&self) -> u32
        ensures { result ≡ self.now.depth }
    {
        self.depth
    }

    /// Its parent, or `None` for the root.
    pub fn parent(&self) -> Option<Inst>
        ensures { option_map inst_number result ≡ self.now.parent }
    {
        self.parent
    }

    /// Its tag, or `None` for the root.
    pub fn standing(&self) -> Option<Standing>
        ensures { option_map standing_of result ≡ self.now.standing }
    {
        self.standing
    }
}
