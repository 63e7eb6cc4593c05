// Scripts of one component, run.
ghost use Rattle.sv_check.specs.Checked.{AreChecked};
ghost use Rattle.sv_lines.specs.Lines.{LinesAscend};

use crate::pages::add_file;
use crate::unanswered::Unanswered;
use std::alloc::Global;
use sv_base::NoMemory;
use sv_check::{Checked, check};
use sv_code::Program;
use sv_compile::compile;
use sv_flush::{Machine, Page};
use sv_io::MemShelf;
use sv_load::load;
use sv_ops::Fault;
use sv_parts::{PatchError, Refusal};
use sv_world::STEP_LIMIT;

/// A page that was mounted, with its program and its fault.
#[derive(Drop)]
pub struct Mounted {
    pub program: Program,
    pub page: Page,
    pub fault: Option<Fault>,
}

impl Mounted {
    /// How many steps the scripts took.
    pub fn steps(&self) -> u32 {
        STEP_LIMIT.saturating_sub(self.page.world.turn.steps())
    }
}

/// The page of a component, mounted.
pub fn page_of(alloc: Global, component: &str) -> Result<Mounted, Unanswered> {
    let program = program(alloc, component)?;
    let mut page = Page::new(alloc)?;
    let fault = fault_of(mount(alloc, &program, &mut page))?;
    Ok(Mounted {
        program,
        page,
        fault,
    })
}

fn program(alloc: Global, component: &str) -> Result<Program, Unanswered> {
    let mut files = Vec::new(alloc);
    add_file(alloc, &mut files, "App.svelte", component.as_bytes())?;
    let mut shelf = MemShelf::new(files, Vec::new(alloc));
    let bundle = load(alloc, &mut shelf, "App.svelte")?;
    match check(alloc, &bundle) {
        Ok(checked) => compiled(alloc, &checked),
        Err(error) => Err(error.into()),
    }
}

fn compiled(alloc: Global, checked: &Checked<'_>) -> Result<Program, Unanswered>
    requires checked { AreChecked checked.now.bundle.now checked.now.components }
    requires lines { LinesAscend checked.now.bundle.now.files }
{
    Ok(compile(alloc, checked)?)
}

fn mount(alloc: Global, program: &Program, page: &mut Page) -> Result<(), PatchError> {
    let machine = Machine { alloc, program };
    page.begin_turn();
    machine.mount(page)?;
    machine.flush(page)
}

// The fault of a turn. It is refused for nothing else, since a script shows no rows and its updates come to an end.
fn fault_of(answer: Result<(), PatchError>) -> Result<Option<Fault>, NoMemory> {
    match answer {
        Ok(()) => Ok(None),
        Err(PatchError::Refused(Refusal::Fault(fault))) => Ok(Some(fault)),
        Err(PatchError::Refused(_)) => Ok(None),
        Err(PatchError::NoMemory) => Err(NoMemory),
    }
}
