// A page that shows one thing is brought to another: both stand in a row with ` > ` between.
ghost use Rattle.std.specs.Prelude.{IfOk};
ghost use Rattle.sv_commit.specs.Root.{IsPage};

use crate::shapes::shape;
use crate::told::{all_told, printed};
use std::alloc::Global;
use sv_base::NoMemory;
use sv_commit::{Screen, blank, show};
use sv_list::Items;
use sv_live::Lives;

/// The changes that are told of the second step, with `, ` between, or `none`.
pub fn changes(alloc: Global, row: &str) -> Result<String, NoMemory> {
    let screen = brought(alloc, row)?;
    all_told(alloc, screen.told())
}

/// The page behind both steps.
pub fn page(alloc: Global, row: &str) -> Result<String, NoMemory> {
    let screen = brought(alloc, row)?;
    printed(alloc, screen.page(), false)
}

// The page behind both steps, with what was told of the second one.
fn brought(alloc: Global, row: &str) -> Result<Screen, NoMemory> {
    let (from, to) = row.split_once(" > ").unwrap_or((row, ""));
    let mut screen = blank(alloc)?;
    let first = step(alloc, &mut screen, Items::new(alloc), from)?;
    screen.forget();
    let second = step(alloc, &mut screen, first, to)?;
    drop(second);
    Ok(screen)
}

// One step.
fn step(alloc: Global, screen: &mut Screen, lives: Lives, words: &str) -> Result<Lives, NoMemory>
    requires { IsPage screen.old.page lives }
    ensures { IfOk result (λ now. IsPage screen.new.page now) }
{
    let nodes = shape(alloc, words)?;
    let now = show(screen, nodes.as_slice(), lives)?;
    Ok(now)
}
