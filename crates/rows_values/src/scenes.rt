// Scenes: what happens to a world, and what it is asked. The steps of a scene stand behind one another with `; ` between, and its answer has
// those of the steps that ask, with `, ` between. An instance is named by its number, and a cell by its instance's number and its own, as in
// `1.0`.
use crate::literals::value;
use crate::{derived, turns};
use std::alloc::Global;
use sv_base::NoMemory;
use sv_instance::Standing;
use sv_rows::{push_part, yes_or_no};
use sv_states::{AddError, AssignError};
use sv_store::Sub;
use sv_value::{Inst, Value, ValueFault, text_of};
use sv_view::View;
use sv_world::World;

/// A world, the instances that were made in it, by number from 1, and the view that was taken last.
#[derive(Drop)]
pub struct Scene {
    pub alloc: Global,
    pub world: World,
    made: Vec<Inst>,
    pub view: Option<View>,
}

/// What a scene is answered.
pub fn told(alloc: Global, row: &str) -> Result<String, NoMemory> {
    let mut scene = Scene::new(alloc)?;
    let mut answers = String::new(alloc);
    for step in row.split("; ") {
        let (verb, rest) = step.split_once(' ').unwrap_or((step, ""));
        let answer = scene.happens(verb, rest)?;
        if !answer.is_empty() {
            push_part(&mut answers, ", ", answer.as_str())?;
        }
    }
    Ok(answers)
}

/// The two words of a text, with a space between.
pub fn two(text: &str) -> (&str, &str) {
    text.split_once(' ').unwrap_or((text, ""))
}

/// A number that a word writes, or 0.
pub fn number(word: &str) -> u32 {
    word.parse::<u32>().unwrap_or(0)
}

/// A small number that a word writes, or 0.
pub fn small(word: &str) -> u8 {
    word.parse::<u8>().unwrap_or(0)
}

/// The value that a word writes; a value that there can't be is `undefined`.
pub fn literal(alloc: Global, word: &str) -> Result<Value, NoMemory> {
    match value(alloc, word) {
        Ok(value) => Ok(value),
        Err(ValueFault::NoMemory) => Err(NoMemory),
        Err(_) => Ok(Value::Undefined),
    }
}

/// The text of a value, or what is told in its place.
pub fn shown(alloc: Global, value: Option<&Value>) -> Result<String, NoMemory> {
    let Some(value) = value else {
        return Ok(String::from_str(alloc, "none")?);
    };
    match text_of(alloc, value) {
        Ok(text) => Ok(String::from_str(alloc, text.as_str())?),
        Err(ValueFault::NoMemory) => Err(NoMemory),
        Err(_) => Ok(String::from_str(alloc, "no text")?),
    }
}

impl Scene {
    fn new(alloc: Global) -> Result<Scene, NoMemory> {
        Ok(Scene {
            alloc,
            world: World::new(alloc)?,
            made: Vec::new(alloc),
            view: None,
        })
    }

    /// The instance of a number, which was made or wasn't.
    pub fn inst(&self, word: &str) -> Inst {
        let number = number(word);
        match self.made.get((number as usize).saturating_sub(1)) {
            Some(inst) => *inst,
            None => Inst {
                key: 0,
                number: number as u64,
            },
        }
    }

    /// The cell that a word names.
    pub fn at(&self, word: &str) -> Sub {
        let (inst, cell) = word.split_once('.').unwrap_or((word, "0"));
        Sub {
            inst: self.inst(inst),
            cell: small(cell),
        }
    }

    /// What a step that asks nothing answers.
    pub fn silent(&self) -> Result<String, NoMemory> {
        Ok(String::new(self.alloc))
    }

    /// A word as an answer.
    pub fn word(&self, word: &str) -> Result<String, NoMemory> {
        Ok(String::from_str(self.alloc, word)?)
    }

    /// A number as an answer.
    pub fn count(&self, count: u64) -> Result<String, NoMemory> {
        Ok(count.to_string(self.alloc)?)
    }

    // Instances.
    fn happens(&mut self, verb: &str, rest: &str) -> Result<String, NoMemory> {
        match verb {
            "add" => self.add(rest),
            "chain" => self.chain(number(rest)),
            "remove" => {
                let inst = self.inst(rest);
                self.world.remove_instance(inst);
                self.silent()
            }
            "live" => self.word(yes_or_no(self.world.is_live(self.inst(rest)))),
            "instances" => self.count(self.world.instances()),
            _ => self.changes(verb, rest),
        }
    }

    // Makes an instance of so many cells, and of three constants: the root, or one below another, of which it is a tag as well.
    fn add(&mut self, rest: &str) -> Result<String, NoMemory> {
        let (cells, parent) = rest.split_once(" below ").unwrap_or((rest, ""));
        if parent.is_empty() {
            return self.made_below(small(cells), None);
        }
        let parent = self.inst(parent);
        self.made_below(small(cells), Some(parent))
    }

    fn made_below(&mut self, cells: u8, parent: Option<Inst>) -> Result<String, NoMemory> {
        let standing = parent.map(|owner| Standing { tag: 0, owner });
        match self.world.add_instance(0, parent, cells, 3, standing) {
            Ok(inst) => {
                self.made.push(inst)?;
                self.count(inst.number)
            }
            Err(AddError::TreeDepth) => self.word("too deep"),
            Err(AddError::NoMemory) => Err(NoMemory),
        }
    }

    // Makes so many instances, each below the one before it, and tells the last answer.
    fn chain(&mut self, count: u32) -> Result<String, NoMemory> {
        let mut last = self.silent()?;
        for _turn in 0..count {
            let parent = self.made.last().copied();
            last = self.made_below(1, parent)?;
        }
        Ok(last)
    }

    // What changes cells.
    fn changes(&mut self, verb: &str, rest: &str) -> Result<String, NoMemory> {
        let (first, second) = two(rest);
        match verb {
            "declare" => self.declare(first, second),
            "assign" => self.assign(first, second),
            "bind" => {
                let (child, owner) = (self.at(first), self.at(second));
                let outcome = self
                    .world
                    .bind_up(child.inst, child.cell, owner.inst, owner.cell);
                self.assigned(outcome)
            }
            "hand-down" => self.hand_down(first, second),
            _ => self.stores(verb, rest),
        }
    }

    fn declare(&mut self, at: &str, word: &str) -> Result<String, NoMemory> {
        let at = self.at(at);
        let value = literal(self.alloc, word)?;
        self.world.states.declare(at, value);
        self.silent()
    }

    fn assign(&mut self, at: &str, word: &str) -> Result<String, NoMemory> {
        let Sub { inst, cell } = self.at(at);
        let value = literal(self.alloc, word)?;
        let outcome = self.world.assign(inst, cell, value);
        self.assigned(outcome)
    }

    // What an assignment answers.
    fn assigned(&self, outcome: Result<(), AssignError>) -> Result<String, NoMemory> {
        match outcome {
            Ok(()) => self.silent(),
            Err(AssignError::ReadOnly) => self.word("read only"),
            Err(AssignError::NotAStore) => self.word("not a store"),
            Err(AssignError::NoMemory) => Err(NoMemory),
        }
    }

    fn hand_down(&mut self, at: &str, word: &str) -> Result<String, NoMemory> {
        let at = self.at(at);
        let value = literal(self.alloc, word)?;
        let outcome = self.world.states.hand_down(at, value);
        self.assigned(outcome)
    }

    fn make_store(&mut self, word: &str) -> Result<String, NoMemory> {
        let value = literal(self.alloc, word)?;
        let store = self.world.states.make_store(value)?;
        self.count(store as u64)
    }

    fn set_store(&mut self, store: u32, word: &str) -> Result<String, NoMemory> {
        let value = literal(self.alloc, word)?;
        let outcome = self.world.set_store(store, value);
        self.assigned(outcome)
    }

    // What sets stores.
    fn stores(&mut self, verb: &str, rest: &str) -> Result<String, NoMemory> {
        let (first, second) = two(rest);
        match verb {
            "store" => self.make_store(rest),
            "set" => self.set_store(number(first), second),
            "value" => shown(self.alloc, self.world.states.store_value(number(rest))),
            "subscribe" => self.subscribe(first, None, Value::Store(number(second))),
            "follow" => self.follow(first, self.at(second)),
            "subscriptions" => self.count(self.world.subscriptions()?),
            _ => derived::happens(self, verb, rest),
        }
    }

    fn subscribe(
        &mut self,
        at: &str,
        source: Option<u8>,
        value: Value,
    ) -> Result<String, NoMemory> {
        let at = self.at(at);
        self.world.states.subscribe(at, source, &value)?;
        self.silent()
    }

    // A cell becomes that of the `$` name of a variable.
    fn follow(&mut self, at: &str, variable: Sub) -> Result<String, NoMemory> {
        let value = match self.world.cell(variable.inst, variable.cell) {
            Some(cell) => cell.value.share()?,
            None => Value::Undefined,
        };
        self.subscribe(at, Some(variable.cell), value)
    }

    /// What is asked of cells, and who waits.
    pub fn asked(&mut self, verb: &str, rest: &str) -> Result<String, NoMemory> {
        match verb {
            "cell" => self.cell(self.at(rest)),
            "dirty" => {
                let Sub { inst, cell } = self.at(rest);
                self.word(yes_or_no(self.world.is_dirty(inst, cell)))
            }
            "snapshot" => self.snapshot(rest),
            "queued" => match self.world.states.first_queued() {
                Some(inst) => self.count(inst.number),
                None => self.word("nobody"),
            },
            _ => turns::happens(self, verb, rest),
        }
    }

    // The value of a cell, and how often it changed.
    fn cell(&self, at: Sub) -> Result<String, NoMemory> {
        let Some(cell) = self.world.cell(at.inst, at.cell) else {
            return self.word("none");
        };
        let text = shown(self.alloc, Some(&cell.value))?;
        Ok(format!(in self.alloc; "{} changed {}", text.as_str(), cell.count)?)
    }

    // Takes a snapshot, and tells which of the first four cells changed.
    fn snapshot(&mut self, rest: &str) -> Result<String, NoMemory> {
        let inst = self.inst(rest);
        let dirty = self.world.take_dirty(inst);
        let mut cells = String::from_str(self.alloc, "changed")?;
        for cell in 0..4_u8 {
            if dirty.has(cell) {
                write!(cells, " {cell}")?;
            }
        }
        Ok(cells)
    }
}
