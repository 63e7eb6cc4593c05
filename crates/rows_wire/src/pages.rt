// Pages that follow a stream.
use std::alloc::Global;
use std::str;
use sv_base::NoMemory;
use sv_rows::push_part;
use sv_wire::{FollowError, Follower, Item, Placed, Reader};

/// The page at each turn of a stream, up to the first change that doesn't fit.
pub fn followed(alloc: Global, bytes: &[u8]) -> Result<String, NoMemory> {
    let mut reader = Reader::new(alloc);
    let mut items = Vec::new(alloc);
    let _fed = reader.feed(bytes, &mut items);
    let mut follower = Follower::new(alloc)?;
    let mut all = String::new(alloc);
    for placed in &items {
        if !follow(alloc, &mut follower, placed, &mut all)? {
            break;
        }
    }
    Ok(all)
}

// Goes on by an item, if it fits.
fn follow(
    alloc: Global,
    follower: &mut Follower,
    placed: &Placed,
    all: &mut String,
) -> Result<bool, NoMemory> {
    match &placed.item {
        Item::Change(change) => match follower.apply(change) {
            Ok(()) => return Ok(true),
            Err(FollowError::Unfit) => {
                let unfit = format!(in alloc; "unfit {}", placed.at)?;
                push_part(all, " | ", unfit.as_str())?;
            }
            Err(FollowError::NoMemory) => return Err(NoMemory),
        },
        Item::Turn { .. } => {
            let html = follower.html()?;
            let shown = format!(in alloc; "[{}]", str::from_utf8(&html).unwrap_or("no text"))?;
            push_part(all, " | ", shown.as_str())?;
            return Ok(true);
        }
        Item::End => {}
    }
    Ok(false)
}
