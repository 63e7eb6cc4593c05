// Which cells changed.
ghost use Rattle.std.specs.Prelude.{◌≡◌, ◌≤◌, [], take, replicate, true};
ghost use Rattle.sv_instance.specs.Dirty.{is_among};

use std::marker::Model;

/// Which cells of an instance changed since its last snapshot.
#[derive(Drop)]
pub struct Dirty {
    flags: [bool; 256],
    len: usize,
}

impl Model for Dirty {
    ghost use Rattle.std.specs.Prelude.{List, Bool, take, ◌≤◌};

    ghost Value = { List Bool };

    ghost view = { λ d. take d.len d.flags };

    ghost invariant = { λ d. d.len ≤ 256 };
}

impl Dirty {
    /// None, of no cells.
    pub fn empty() -> Dirty
        ensures { result ≡ [] }
    {
        Dirty {
            flags: [false; 256],
            len: 0,
        }
    }

    /// All of so many cells.
    pub(crate) fn all(len: usize) -> Dirty
        requires { len ≤ 256 }
        ensures { result ≡ replicate len true }
    {
        Dirty {
            flags: [true; 256],
            len,
        }
    }

    pub(crate) fn of(flags: [bool; 256], len: usize) -> Dirty
        requires { len ≤ 256 }
        ensures { result ≡ take len flags }
    {
        Dirty { flags, len }
    }

    /// Whether a cell is among them.
    pub fn has(&self, cell: u8) -> bool
        ensures { result ≡ is_among self.now cell }
    {
        (cell as usize) < self.len && self.flags[cell as usize]
    }
}
