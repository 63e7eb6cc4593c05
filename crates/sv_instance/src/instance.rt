// Instances.
ghost use Rattle.std.specs.Prelude.{◌≡◌, IfOk};
ghost use Rattle.sv_instance.specs.Instance.{born};

use crate::cells::Cells;
use crate::place::Place;
use crate::setup::Setup;
use crate::subscriptions::Subscriptions;
use std::alloc::Global;
use sv_base::NoMemory;
use sv_view::View;

/// An instance of a component: where it stands, its cells, its owner's view, on which it shows slot content, the stores that
/// it looks at, what was left with it, and whether it waits for an update.
#[derive(Drop)]
pub struct Instance {
    pub place: Place,
    pub cells: Cells,
    pub owner_view: Option<View>,
    pub subscriptions: Subscriptions,
    pub setup: Setup,
    pub queued: bool,
}

impl Instance {
    /// An instance at a place with so many cells and constants, whose script hasn't run.
    pub fn new(alloc: Global, place: Place, cells: u8, constants: u32) -> Result<Instance, NoMemory>
        ensures { IfOk result (λ instance. instance ≡ born place cells constants) }
    {
        Ok(Instance {
            place,
            cells: Cells::new(alloc, cells)?,
            owner_view: None,
            subscriptions: Subscriptions::new(alloc),
            setup: Setup::new(alloc, constants)?,
            queued: false,
        })
    }
}
