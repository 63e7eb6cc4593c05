// The limits of running code.

/// How many calls of functions may be open, one inside another.
pub const CALL_LIMIT: u32 = 48;

/// How many steps a pure evaluation may take.
pub const PART_STEP_LIMIT: u32 = 100_000;
