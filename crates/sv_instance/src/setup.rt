// What is left with an instance.
ghost use Rattle.std.specs.Prelude.{◌≡◌, IfOk};
ghost use Rattle.sv_instance.specs.Setup.{empty};

use crate::bounds::Bounds;
use crate::callbacks::Callbacks;
use crate::contexts::Contexts;
use std::alloc::Global;
use sv_base::NoMemory;
use sv_view::{Constants, Locals};

/// What an instance's script and its tag left with it: its constants, contexts, callbacks and bound props, the row locals and
/// slot props with which its tag was last shown, and whether the listeners of its tag are attached.
#[derive(Drop)]
pub struct Setup {
    pub constants: Constants,
    pub contexts: Contexts,
    pub callbacks: Callbacks,
    pub bounds: Bounds,
    pub locals: Locals,
    pub attached: bool,
}

impl Setup {
    /// Nothing yet, with so many constants that have no values.
    pub fn new(alloc: Global, constants: u32) -> Result<Setup, NoMemory>
        ensures { IfOk result (λ setup. setup ≡ empty constants) }
    {
        Ok(Setup {
            constants: Constants::new(alloc, constants)?,
            contexts: Contexts::new(alloc),
            callbacks: Callbacks::new(alloc),
            bounds: Bounds::new(alloc),
            locals: Locals::new(alloc)?,
            attached: false,
        })
    }
}
