// A watcher that counts.
ghost use Rattle.std.specs.Prelude.{◌≡◌, ◌++◌, ◌∷◌, [], count_by, IfOk, OnOk, OnErr};
ghost use Rattle.sv_watch.specs.Counter.{is_of, column, counts};

use crate::copy::copy_of;
use crate::{TellError, Watcher};
use std::alloc::Global;
use std::marker::Model;
use sv_base::NoMemory;
use sv_list::Items;
use sv_tokens::Change;

/// A watcher that counts the changes of each kind. It never refuses one.
#[derive(Drop)]
pub struct Counter {
    heard: Items<Change>,
}

impl Model for Counter {
    ghost use Rattle.std.specs.Prelude.{List};
    ghost use Rattle.sv_tokens.specs.declared.change.Change.{Change};

    ghost Value = { List Change };

    ghost view = { λ counter. counter.heard };
}

impl Counter {
    /// A counter that has heard nothing.
    pub fn new(alloc: Global) -> Counter
        ensures { result ≡ [] }
    {
        Counter {
            heard: Items::new(alloc),
        }
    }
}

impl Watcher for Counter {
    ghost use Rattle.std.specs.Prelude.{◌≡◌, ◌++◌, ◌∷◌, [], IfOk, OnOk, OnErr};
    ghost use Rattle.sv_watch.specs.Counter.{counts};
    ghost use Rattle.sv_watch.specs.declared.watcher.TellError.TheVariants as errors;

    ghost heard = { λ counter. counter };

    ghost faults = { λ _. 0 };

    ghost report_of = { λ _. counts };

    fn tell(&mut self, change: &Change) -> Result<(), TellError>
        ensures heard { OnOk result (self.new ≡ self.old ++ change.now ∷ []) }
        ensures kept { OnErr result (self.new ≡ self.old) }
        ensures wants { OnErr result (result ≡ Err TellError.NoMemory) }
    {
        let copy = copy_of(change)?;
        self.heard.push(copy)?;
        Ok(())
    }

    /// `made M removed R texts T attrs A moves V typed Y`, where A counts attributes that were set or dropped.
    fn report(&self, alloc: Global) -> Result<Vec<u8>, NoMemory>
        ensures { IfOk result (λ bytes. bytes.items ≡ counts self.now) }
    {
        let heard = self.heard.as_slice();
        let mut out = Vec::new(alloc);
        push_count(alloc, &mut out, "made ", heard, Kind::Made)?;
        push_count(alloc, &mut out, " removed ", heard, Kind::Removed)?;
        push_count(alloc, &mut out, " texts ", heard, Kind::Texts)?;
        push_count(alloc, &mut out, " attrs ", heard, Kind::Attrs)?;
        push_count(alloc, &mut out, " moves ", heard, Kind::Moves)?;
        push_count(alloc, &mut out, " typed ", heard, Kind::Typed)?;
        Ok(out)
    }
}

// What is counted.
#[derive(Clone, Copy)]
enum Kind {
    Made,
    Removed,
    Texts,
    Attrs,
    Moves,
    Typed,
}

impl Kind {
    // Whether the change is counted there.
    fn has(self, change: &Change) -> bool
        ensures { result ≡ is_of self change.now }
    {
        match self {
            Kind::Made => matches!(change, Change::Make { .. }),
            Kind::Removed => matches!(change, Change::Remove { .. }),
            Kind::Texts => matches!(change, Change::SetText { .. }),
            Kind::Attrs => matches!(change, Change::SetAttr { .. } | Change::DropAttr { .. }),
            Kind::Moves => matches!(change, Change::Move { .. }),
            Kind::Typed => matches!(change, Change::SetTyped { .. }),
        }
    }
}

// How many of the changes are counted there, behind a word.
fn push_count(
    alloc: Global,
    out: &mut Vec<u8>,
    word: &str,
    heard: &[Change],
    kind: Kind,
) -> Result<(), NoMemory>
    ensures { OnOk result (out.new.items ≡ out.old.items ++ column word.now kind heard.now) }
{
    let count = heard.iter().filter(|change| kind.has(change)).count();
    let digits = count.to_string(alloc)?;
    out.extend_from_slice(word.as_bytes())?;
    out.extend_from_slice(digits.as_str().as_bytes())?;
    Ok(())
}
