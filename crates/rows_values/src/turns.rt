// Steps of scenes that have to do with what is left with instances, and with a turn.
use crate::scenes::{Scene, literal, number, shown, two};
use crate::views;
use sv_base::{NoMemory, Text};
use sv_instance::When;
use sv_rows::{push_part, yes_or_no};
use sv_value::{Inst, Key};

/// What is left with instances.
pub fn happens(scene: &mut Scene, verb: &str, rest: &str) -> Result<String, NoMemory> {
    let (first, second) = two(rest);
    let inst = scene.inst(first);
    match verb {
        "callback" => add_callback(scene, inst, second),
        "called" => {
            let (when, at) = two(second);
            let callback = scene.world.callback(inst, when_of(when), number(at));
            shown(scene.alloc, callback)
        }
        "context" => set_context(scene, inst, second),
        "find" => find_context(scene, inst, second),
        "constant" => set_constant(scene, inst, second),
        "constant-of" => shown(scene.alloc, scene.world.constant(inst, number(second))),
        _ => tag(scene, verb, rest),
    }
}

fn add_callback(scene: &mut Scene, inst: Inst, rest: &str) -> Result<String, NoMemory> {
    let (when, word) = two(rest);
    let callback = literal(scene.alloc, word)?;
    scene.world.add_callback(inst, when_of(when), callback)?;
    scene.silent()
}

fn set_context(scene: &mut Scene, inst: Inst, rest: &str) -> Result<String, NoMemory> {
    let (key, word) = two(rest);
    let key = key_of(scene, key)?;
    let value = literal(scene.alloc, word)?;
    scene.world.set_context(inst, key, value)?;
    scene.silent()
}

fn find_context(scene: &Scene, inst: Inst, word: &str) -> Result<String, NoMemory> {
    let key = key_of(scene, word)?;
    shown(scene.alloc, scene.world.states.context(inst, &key))
}

fn set_constant(scene: &mut Scene, inst: Inst, rest: &str) -> Result<String, NoMemory> {
    let (constant, word) = two(rest);
    let value = literal(scene.alloc, word)?;
    scene.world.set_constant(inst, number(constant), value)?;
    scene.silent()
}

// How the tag of an instance stands: whether its listeners are attached, and how many locals it was shown with last.
fn tag(scene: &mut Scene, verb: &str, rest: &str) -> Result<String, NoMemory> {
    let inst = scene.inst(rest);
    match verb {
        "attach" => {
            scene.world.attach(inst);
            scene.silent()
        }
        "show-tag" => {
            if let Some(view) = &scene.view {
                scene.world.show_tag(inst, view.locals().share()?);
            }
            scene.silent()
        }
        "tag" => match scene.world.states.get(inst) {
            Some(instance) => {
                let setup = &instance.setup;
                let (attached, locals) = (setup.attached, setup.locals.as_slice().len());
                Ok(format!(in scene.alloc; "{} with {locals}", yes_or_no(attached))?)
            }
            None => scene.word("none"),
        },
        _ => turn(scene, verb, rest),
    }
}

// A key: a number, or a text behind `'`.
fn key_of(scene: &Scene, word: &str) -> Result<Key, NoMemory> {
    match word.strip_prefix('\'') {
        Some(text) => Ok(Key::Text(Text::new(scene.alloc, text)?)),
        None => Ok(Key::Num(word.parse::<i64>().unwrap_or(0))),
    }
}

fn when_of(word: &str) -> When {
    match word {
        "mount" => When::Mount,
        "before" => When::Before,
        "after" => When::After,
        "destroy" => When::Destroy,
        _ => When::Returned,
    }
}

// What a turn may still spend, and what it logged.
fn turn(scene: &mut Scene, verb: &str, rest: &str) -> Result<String, NoMemory> {
    let turn = &mut scene.world.turn;
    match verb {
        "begin" => {
            turn.begin();
            scene.silent()
        }
        "step" => {
            let left = turn.step();
            scene.word(yes_or_no(left))
        }
        "spend" => {
            let left = turn.spend(number(rest) as usize);
            scene.word(yes_or_no(left))
        }
        "steps" => {
            let steps = turn.steps();
            scene.count(steps as u64)
        }
        "log" => {
            turn.write_log(Text::new(scene.alloc, rest)?)?;
            scene.silent()
        }
        "logged" => logged(scene),
        _ => views::happens(scene, verb, rest),
    }
}

// The lines of the log.
fn logged(scene: &Scene) -> Result<String, NoMemory> {
    let mut told = scene.word("log:")?;
    for line in scene.world.turn.log() {
        push_part(&mut told, " ", line.as_str())?;
    }
    Ok(told)
}
