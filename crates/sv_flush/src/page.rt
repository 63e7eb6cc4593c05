// Pages.
ghost use Rattle.std.specs.Prelude.{◌≡◌, IfOk};
ghost use Rattle.sv_flush.specs.Page.{blank, begun};

use crate::rounds::Rounds;
use std::alloc::Global;
use sv_base::NoMemory;
use sv_parts::{Counters, Tally};
use sv_shapes::Showing;
use sv_world::World;

/// A page: the world of its scripts, what a flush still has to do, what is shown, the work that is left in a turn, and how many expressions of
/// markup were evaluated in it.
#[derive(Drop)]
pub struct Page {
    pub world: World,
    pub rounds: Rounds,
    pub showing: Showing,
    pub counters: Counters,
    pub tally: Tally,
}

impl Page {
    /// A page on which nothing is.
    pub fn new(alloc: Global) -> Result<Page, NoMemory>
        ensures { IfOk result (λ page. page ≡ blank) }
    {
        Ok(Page {
            world: World::new(alloc)?,
            rounds: Rounds::new(alloc),
            showing: Showing::new(alloc),
            counters: Counters::new(),
            tally: Tally::new(),
        })
    }

    /// The next turn begins: all steps and all work are there again, the log is empty, and no expression was evaluated.
    pub fn begin_turn(&mut self)
        ensures { self.new ≡ begun self.old }
    {
        self.world.turn.begin();
        self.counters.begin();
        self.tally = Tally::new();
    }
}
