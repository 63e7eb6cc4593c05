// Whole numbers that a double holds exactly.
ghost use Rattle.std.specs.Prelude.{◌≡◌};
ghost use Rattle.std.specs.Option.{SomeIff};
ghost use Rattle.sv_base.specs.Num.{IsSafe};

use std::fmt;
use std::marker::Model;

/// A whole number from -(2^53 - 1) to 2^53 - 1, which are the safe integers of ECMA-262, section 21.1.2.6.
/// A clause sees it as a ℤ.
#[derive(Clone, Copy, Debug, PartialEq, Eq)]
pub struct Num {
    value: i64,
}

impl Model for Num {
    ghost use Rattle.std.specs.Prelude.{ℤ};
    ghost use Rattle.sv_base.specs.Num.{IsSafe};

    ghost Value = { ℤ };

    ghost view = { λ n. n.value };

    ghost invariant = { λ n. IsSafe n.value };

    ghost inverse = { λ z. record { value = z } };
}

impl Num {
    /// The greatest number.
    pub const MAX: i64 = (1 << 53) - 1;

    /// The least number.
    pub const MIN: i64 = -Num::MAX;

    /// The number `n`, or `None` exactly where it is out of the range.
    pub fn new(n: i64) -> Option<Num>
        ensures { SomeIff result (IsSafe n) n }
    {
        if Num::MIN <= n && n <= Num::MAX {
            Some(Num { value: n })
        } else {
            None
        }
    }

    /// The number as an integer, which is in the range.
    pub fn get(self) -> i64
        ensures value { result ≡ self }
        ensures safe { IsSafe self }
    {
        self.value
    }
}

impl fmt::Display for Num {
    ghost use Rattle.std.specs.Prelude.{Some};
    ghost use Rattle.std.specs.Fmt.{signed_decimal};

    ghost output = { λ n. Some (signed_decimal n) };

    fn fmt<W: fmt::Write>(&self, f: &mut fmt::Formatter<W>) -> fmt::Result {
        let value = self.get();
        write!(f, "{value}")
    }
}
