// How the watchers of a list are told.
ghost use Rattle.std.specs.Prelude.{◌≡◌, ◌≤◌, ◌<◌, ◌+◌};
ghost use Rattle.std.specs.Result.{is_ok};
ghost use Rattle.std.specs.Vec.{vec_len, vec_capacity};
ghost use Rattle.sv_watch.specs.Ear.{ear_of, ears_of};
ghost use Rattle.sv_watch.specs.Each.{TellsEach, Parts};
ghost use Rattle.sv_watch.specs.Told.{Answers, Tells, TellsAt, Leaves};

use crate::{TellError, Watcher};
use sv_base::NoMemory;
use sv_tokens::Change;

/// Tells each watcher of the list of the change, in their order. One that refuses it is moved to the end of `gone`. Room
/// for all of them is made there first; where that is refused nobody was told. Where a watcher finds no memory, those before it
/// were told, and it and the later ones are as they were.
pub fn tell_all<W: Watcher>(
    list: &mut Vec<W>,
    gone: &mut Vec<W>,
    change: &Change,
) -> Result<(), NoMemory>
    ensures { Tells change.now result (ears_of W.Watcher list.old.items) (ears_of W.Watcher list.new.items)
        (ears_of W.Watcher gone.old.items) (ears_of W.Watcher gone.new.items) }
{
    gone.reserve(list.len())?;
    let mut at = 0;
    while at < list.len() {
        match tell_at(list, at, change) {
            Ok(()) => at += 1,
            Err(TellError::Refused) => let_go(list, at, gone),
            Err(TellError::NoMemory) => return Err(NoMemory),
        }
    }
    Ok(())
}

/// Tells each watcher of the list of each change, one change after another, as `tell_all` does. Where memory is wanting, no
/// later change is told. So one that is left has heard some of the first changes, or all where the answer is Ok, and one that
/// went to `gone` has heard those before the one that it refused.
pub fn tell_each<W: Watcher>(
    list: &mut Vec<W>,
    gone: &mut Vec<W>,
    changes: &[Change],
) -> Result<(), NoMemory>
    ensures told { TellsEach changes.now result (ears_of W.Watcher list.old.items) (ears_of W.Watcher list.new.items)
        (ears_of W.Watcher gone.old.items) (ears_of W.Watcher gone.new.items) }
    ensures parts { Parts (is_ok result) changes.now (ears_of W.Watcher list.old.items) (ears_of W.Watcher list.new.items)
        (ears_of W.Watcher gone.old.items) (ears_of W.Watcher gone.new.items) }
{
    for change in changes {
        tell_all(list, gone, change)?;
    }
    Ok(())
}

// Tells the watcher at a place.
fn tell_at<W: Watcher>(list: &mut Vec<W>, at: usize, change: &Change) -> Result<(), TellError>
    requires { at < vec_len list.old }
    ensures told { TellsAt change.now result (ears_of W.Watcher list.old.items) (ears_of W.Watcher list.new.items) at }
    ensures len { vec_len list.new ≡ vec_len list.old }
{
    tell_one(&mut list[at], change)
}

fn tell_one<W: Watcher>(watcher: &mut W, change: &Change) -> Result<(), TellError>
    ensures { Answers change.now result (ear_of W.Watcher watcher.old) (ear_of W.Watcher watcher.new) }
{
    watcher.tell(change)
}

// Moves the watcher at a place to the end of `gone`, where there is room.
fn let_go<W: Watcher>(list: &mut Vec<W>, at: usize, gone: &mut Vec<W>)
    requires inside { at < vec_len list.old }
    requires room { vec_len gone.old < vec_capacity gone.old }
    ensures leaves { Leaves (ears_of W.Watcher list.old.items) (ears_of W.Watcher list.new.items)
        (ears_of W.Watcher gone.old.items) (ears_of W.Watcher gone.new.items) at }
    ensures fewer { vec_len list.new + 1 ≡ vec_len list.old }
    ensures more { vec_len gone.new ≡ vec_len gone.old + 1 }
    ensures capacity { vec_capacity gone.old ≤ vec_capacity gone.new }
{
    let watcher = list.remove(at);
    if gone.push(watcher).is_err() {
        unreachable!();
    }
}
