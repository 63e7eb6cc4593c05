// Derived stores: a graph of two of them, and those of a scene's world.
ghost use Rattle.std.specs.Prelude.{◌≡◌, IfOk};

use crate::scenes::{Scene, literal, number, two};
use std::alloc::Global;
use sv_base::{NoMemory, Span};
use sv_derived::{Graph, Recipe};
use sv_rows::push_part;
use sv_value::{Inst, Value};

/// What a graph is answered that has two derived stores: number 1, which instance 7 derived of store 0, and number 2, which instance 8
/// derived of the stores 0 and 1.
pub fn graph(alloc: Global, row: &str) -> Result<String, NoMemory> {
    let mut graph = graph_of_two(alloc)?;
    let mut answers = String::new(alloc);
    for step in row.split("; ") {
        let (verb, rest) = two(step);
        let answer = graph_happens(alloc, &mut graph, verb, number(rest))?;
        if !answer.is_empty() {
            push_part(&mut answers, ", ", answer.as_str())?;
        }
    }
    Ok(answers)
}

fn graph_of_two(alloc: Global) -> Result<Graph, NoMemory> {
    let mut graph = Graph::new(alloc);
    graph.add(1, maker(7), recipe(alloc, &[0])?)?;
    graph.add(2, maker(8), recipe(alloc, &[0, 1])?)?;
    Ok(graph)
}

fn maker(number: u32) -> Inst {
    Inst {
        key: 0,
        number: number as u64,
    }
}

// A recipe whose function is never called.
fn recipe(alloc: Global, stores: &[u32]) -> Result<Recipe, NoMemory>
    ensures { IfOk result (λ r. r.inputs ≡ stores.now) }
{
    Ok(Recipe {
        inputs: Vec::from_slice(alloc, stores)?,
        takes_list: stores.len() > 1,
        function: Value::Null,
        span: Span {
            file: 0,
            from: 0,
            to: 0,
        },
    })
}

// What happens to a graph, and what it is asked.
fn graph_happens(
    alloc: Global,
    graph: &mut Graph,
    verb: &str,
    number: u32,
) -> Result<String, NoMemory> {
    match verb {
        "mark" => graph.mark(number),
        "done" => graph.done(number),
        "freeze" => graph.freeze(maker(number)),
        "inputs" => return numbers(alloc, graph.inputs(number)),
        _ => return number_or_none(alloc, graph.next()),
    }
    Ok(String::new(alloc))
}

fn numbers(alloc: Global, numbers: &[u32]) -> Result<String, NoMemory> {
    let mut told = String::from_str(alloc, "of")?;
    for number in numbers {
        write!(told, " {number}")?;
    }
    Ok(told)
}

fn number_or_none(alloc: Global, number: Option<u32>) -> Result<String, NoMemory> {
    match number {
        Some(number) => Ok(number.to_string(alloc)?),
        None => Ok(String::from_str(alloc, "none")?),
    }
}

/// What derives stores in a scene, and what is asked of them.
pub fn happens(scene: &mut Scene, verb: &str, rest: &str) -> Result<String, NoMemory> {
    let (first, second) = two(rest);
    match verb {
        "derive" => derive(scene, first, second),
        "settle" => settle(scene, number(first), second),
        "pending" => number_or_none(scene.alloc, scene.world.states.pending()),
        "derived" => scene.count(scene.world.states.derived_count() as u64),
        _ => scene.asked(verb, rest),
    }
}

// An instance derives a store of another one, which was made, with a value.
fn derive(scene: &mut Scene, owner: &str, rest: &str) -> Result<String, NoMemory> {
    let (input, word) = two(rest);
    let input = number(input);
    if scene.world.states.store_value(input).is_none() {
        return scene.word("no store");
    }
    let owner = scene.inst(owner);
    let recipe = recipe(scene.alloc, &[input])?;
    let value = literal(scene.alloc, word)?;
    let store = scene.world.states.make_derived(owner, recipe, value)?;
    scene.count(store as u64)
}

fn settle(scene: &mut Scene, store: u32, word: &str) -> Result<String, NoMemory> {
    let value = literal(scene.alloc, word)?;
    scene.world.states.settle_one(store, value)?;
    scene.silent()
}
