// What a turn may still spend, and what it logged.
ghost use Rattle.std.specs.Prelude.{◌≡◌, ◌++◌, ◌∷◌, ◌-◌, nat_lt, nat_le, if◌then◌else◌, OnOk, OnErr};
ghost use Rattle.sv_world.specs.Turn.{fresh, begun, logged};

use std::alloc::Global;
use std::marker::Model;
use sv_base::{NoMemory, Text};

/// How many steps the scripts of a turn may take.
pub const STEP_LIMIT: u32 = 1_000_000;

/// The steps that are left in a turn, and the lines of its log.
#[derive(Drop)]
pub struct Turn {
    steps: u32,
    log: Vec<Text>,
}

impl Model for Turn {
    ghost use Rattle.sv_world.specs.Turn.{Turn, turn_code};

    ghost Value = { Turn };

    ghost coded = { turn_code };

    ghost view = { λ t. record { steps = t.steps; log = t.log.items } };
}

impl Turn {
    /// A turn in which nothing was spent.
    pub fn new(alloc: Global) -> Turn
        ensures { result ≡ fresh }
    {
        Turn {
            steps: STEP_LIMIT,
            log: Vec::new(alloc),
        }
    }

    /// The next turn begins: all steps are there again, and the log is empty.
    pub fn begin(&mut self)
        ensures { self.new ≡ begun self.old }
    {
        self.steps = STEP_LIMIT;
        self.log.clear();
    }

    /// The steps that are left.
    pub fn steps(&self) -> u32
        ensures { result ≡ self.now.steps }
    {
        self.steps
    }

    /// Takes a step; `false` exactly where none is left.
    pub fn step(&mut self) -> bool
        ensures left { result ≡ nat_lt 0 self.old.steps }
        ensures taken { self.new ≡ record self.old { steps = self.old.steps - 1 } }
    {
        let left = self.steps > 0;
        self.steps = self.steps.saturating_sub(1);
        left
    }

    /// Takes so many steps; `false`, with none taken, exactly where not so many are left.
    pub fn spend(&mut self, steps: usize) -> bool
        ensures left { result ≡ nat_le steps self.old.steps }
        ensures taken { self.new ≡ record self.old { steps = if result then self.old.steps - steps else self.old.steps } }
    {
        if steps <= self.steps as usize {
            self.steps -= steps as u32;
            true
        } else {
            false
        }
    }

    /// Writes a line to the log.
    pub fn write_log(&mut self, line: Text) -> Result<(), NoMemory>
        ensures ok { OnOk result (self.new ≡ logged self.old line) }
        ensures err { OnErr result (self.new ≡ self.old) }
    {
        self.log.push(line)?;
        Ok(())
    }

    /// The lines of the log.
    pub fn log(&self) -> &[Text]
        ensures { result.now ≡ self.now.log }
    {
        self.log.as_slice()
    }
}
