// What the rules take: what reads the inside of constructs.

/// Says what reads the inside of a construct.
pub trait Enclosed {
    ghost use Rattle.std.specs.Prelude.{ℕ};
    ghost use Rattle.sv_expr.specs.Rules.{Readers};

    /// What reads it where so many constructs may still enclose one another.
    ghost readers: { ℕ → Readers };
}
