// The keys of a node's children.
ghost use Rattle.std.specs.Prelude.{◌≡◌, ◌≤◌, ◌<◌, OnOk, OnErr, Some, length};
ghost use Rattle.std.specs.List.{insert, remove};
ghost use Rattle.std.specs.Vec.{vec_len, vec_capacity};
ghost use Rattle.sv_nodes.specs.Sound.{IsAmong, IsAt};
ghost use Rattle.sv_nodes.specs.Steps.{IsStart, Grows, Cuts, Reorders};

use sv_base::NoMemory;

// The place before a child, or the end.
pub(crate) fn place_of(children: &[u32], before: Option<u32>) -> usize
    requires { IsAt before children.now }
    ensures { IsStart before result children.now }
{
    match before {
        Some(child) => place_of_child(children, child),
        None => children.len(),
    }
}

// Where a child stands. It is looked for from the back, where most changes are made.
fn place_of_child(children: &[u32], child: u32) -> usize
    requires { IsAmong child children.now }
    ensures { IsStart (Some child) result children.now }
{
    let mut at = children.len();
    while at > 0 {
        at -= 1;
        if children[at] == child {
            return at;
        }
    }
    unreachable!()
}

// Adds a child at a place.
pub(crate) fn insert_child(children: &mut Vec<u32>, at: usize, child: u32) -> Result<(), NoMemory>
    requires { at ≤ length children.old.items }
    ensures ok { OnOk result (Grows child at children.old.items children.new.items) }
    ensures err { OnErr result (children.new.items ≡ children.old.items) }
{
    children.insert(at, child)?;
    Ok(())
}

// Takes one child away.
pub(crate) fn cut_child(children: &mut Vec<u32>, child: u32)
    requires { IsAmong child children.old.items }
    ensures { Cuts child children.old.items children.new.items }
{
    let at = place_of_child(children, child);
    children.remove(at);
}

// Puts the child at a place before another one, or at the end, and says where it stands now.
pub(crate) fn shift_child(
    children: &mut Vec<u32>,
    child: u32,
    from: usize,
    before: Option<u32>,
) -> usize
    requires child { IsStart (Some child) from children.old.items }
    requires place { IsAt before (remove children.old.items from) }
    ensures shifted { Reorders child from result before children.old.items children.new.items }
    ensures bound { result < usize.MAX }
{
    children.remove(from);
    let to = place_of(children, before);
    insert_within(children, to, child);
    to
}

// Adds a child at a place where there is room for it.
fn insert_within(children: &mut Vec<u32>, at: usize, child: u32)
    requires inside { at ≤ length children.old.items }
    requires room { vec_len children.old < vec_capacity children.old }
    ensures { children.new.items ≡ insert children.old.items at child }
{
    match children.insert(at, child) {
        Ok(()) => (),
        Err(_) => unreachable!(),
    }
}
