// Where a statement stands.
ghost use Rattle.std.specs.Prelude.{◌≡◌};
ghost use Rattle.sv_script.specs.Places as spec;

/// Where a statement stands, which says what it may be.
#[derive(Clone, Copy, Debug, PartialEq, Eq)]
pub struct Place {
    pub in_loop: bool,
    pub in_function: bool,
}

/// The top of a file.
pub const TOP: Place = Place {
    in_loop: false,
    in_function: false,
};

/// The body of a function.
pub const FUNCTION: Place = Place {
    in_loop: false,
    in_function: true,
};

impl Place {
    /// The body of a loop that stands here.
    pub fn looped(self) -> Place
        ensures { result ≡ spec.looped self }
    {
        Place {
            in_loop: true,
            in_function: self.in_function,
        }
    }
}
