// Files of steps.
use std::alloc::Global;
use sv_base::NoMemory;
use sv_checks::{Deed, DeedError, deeds_of};
use sv_events::EventsError;
use sv_rows::push_part;
use sv_steps::read_steps;

/// What a file of steps tells.
pub fn told(alloc: Global, row: &str) -> Result<String, NoMemory> {
    match read_steps(alloc, row.as_bytes()) {
        Ok(steps) => match deeds_of(alloc, &steps) {
            Ok(deeds) => words(alloc, &deeds),
            Err(DeedError::NoMemory) => Err(NoMemory),
            Err(error) => Ok(error.to_string(alloc)?),
        },
        Err(EventsError::NoMemory) => Err(NoMemory),
        Err(error) => Ok(error.to_string(alloc)?),
    }
}

fn words(alloc: Global, deeds: &[Deed<'_>]) -> Result<String, NoMemory> {
    let mut line = String::new(alloc);
    for deed in deeds {
        match deed {
            Deed::Event(event) => push_part(&mut line, ", ", event.name.as_str())?,
            Deed::Check(_) => push_part(&mut line, ", ", "check")?,
        }
    }
    Ok(line)
}
