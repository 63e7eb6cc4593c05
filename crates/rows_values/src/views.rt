// Steps of scenes that take views and look in them.
use crate::scenes::{Scene, literal, number, shown, small, two};
use sv_base::{Name, NoMemory};
use sv_rows::push_part;
use sv_value::Value;
use sv_view::{At, Cell, Constants, Modules, View};

/// What makes a view: the present one of an instance; one with another local; one below it, of an instance with a cell of 9 that
/// shows slot content on it; its owner's; and a shared copy.
pub fn happens(scene: &mut Scene, verb: &str, rest: &str) -> Result<String, NoMemory> {
    let taken = match verb {
        "view" => scene.world.present(scene.alloc, scene.inst(rest))?,
        "with" => with_local(scene, rest)?,
        "shown-by" => below(scene, rest)?,
        "owner" => match &scene.view {
            Some(view) => view.owner()?,
            None => None,
        },
        "shared" => match &scene.view {
            Some(view) => Some(view.share()?),
            None => None,
        },
        "with-modules" => with_modules(scene, rest)?,
        _ => return asked(scene, verb, rest),
    };
    scene.view = taken;
    scene.silent()
}

// The view with a local: its name by number, its own number, and its value.
fn with_local(scene: &Scene, rest: &str) -> Result<Option<View>, NoMemory> {
    let Some(view) = &scene.view else {
        return Ok(None);
    };
    let (name, behind) = two(rest);
    let (version, value) = two(behind);
    let value = literal(scene.alloc, value)?;
    let name = Name(number(name));
    Ok(Some(view.with_local(name, value, number(version) as u64)?))
}

// The view of an instance with one cell, whose owner's view is the one that was taken last.
fn below(scene: &Scene, rest: &str) -> Result<Option<View>, NoMemory> {
    let mut cells = Vec::new(scene.alloc);
    cells.push(Cell {
        value: literal(scene.alloc, "9")?,
        count: 4,
    })?;
    let owner = scene.view.as_ref();
    let view = View::of(scene.alloc, scene.inst(rest), cells, owner)?;
    Ok(Some(view))
}

// The view without constants of its own, where the module file 1 gives a value to its constant 0.
fn with_modules(scene: &mut Scene, rest: &str) -> Result<Option<View>, NoMemory> {
    let Some(view) = scene.view.take() else {
        return Ok(None);
    };
    let mut modules = Modules::new(scene.alloc, &[0, 1])?;
    modules.set(1, 0, literal(scene.alloc, rest)?)?;
    let constants = Constants::new(scene.alloc, 0)?;
    Ok(Some(view.with_constants(constants, modules)))
}

// What is asked of the view.
fn asked(scene: &Scene, verb: &str, rest: &str) -> Result<String, NoMemory> {
    let Some(view) = &scene.view else {
        return scene.word("no view");
    };
    match verb {
        "sees-cell" => seen(scene, view, At::Cell(small(rest))),
        "sees-name" => seen(scene, view, At::Local(Name(number(rest)))),
        "sees-owner" => seen(scene, view, At::Owner(small(rest))),
        "sees-constant" => shown(scene.alloc, view.constant(number(rest))),
        "sees-module" => shown(scene.alloc, view.module_constant(1, number(rest))),
        "whose" => scene.count(view.inst().number),
        "locals" => {
            let mut told = scene.word("locals:")?;
            for local in view.locals().as_slice() {
                push_part(
                    &mut told,
                    " ",
                    local.name.0.to_string(scene.alloc)?.as_str(),
                )?;
            }
            Ok(told)
        }
        _ => scene.word("no such step"),
    }
}

// A value in a view, and its version.
fn seen(scene: &Scene, view: &View, at: At) -> Result<String, NoMemory> {
    let text = shown(scene.alloc, view.look(at))?;
    Ok(format!(in scene.alloc; "{} at {}", text.as_str(), view.version(at))?)
}
