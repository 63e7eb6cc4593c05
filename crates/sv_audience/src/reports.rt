// What watchers report.
ghost use Rattle.std.specs.Prelude.{◌≡◌, ◌++◌, OnOk};
ghost use Rattle.sv_audience.specs.Reports as spec;
ghost use Rattle.sv_watch.specs.Ear.{ear_of, ears_of};

use std::alloc::Global;
use sv_base::NoMemory;
use sv_heads::watch_line;
use sv_watch::Watcher;

/// Appends what each watcher reports, under a line with its place, from 1 on.
pub fn push_reports<W: Watcher>(
    alloc: Global,
    text: &mut Vec<u8>,
    watchers: &[W],
) -> Result<(), NoMemory>
    ensures { OnOk result (text.new.items ≡ text.old.items ++ spec.reports (ears_of W.Watcher watchers.now)) }
{
    let mut number = 0;
    for watcher in watchers {
        number += 1;
        push_report(alloc, text, number, watcher)?;
    }
    Ok(())
}

fn push_report<W: Watcher>(
    alloc: Global,
    text: &mut Vec<u8>,
    number: usize,
    watcher: &W,
) -> Result<(), NoMemory>
    ensures { OnOk result (text.new.items ≡ text.old.items ++ spec.report_at number (ear_of W.Watcher watcher.now)) }
{
    let line = watch_line(alloc, number)?;
    text.extend_from_slice(line.as_bytes())?;
    let report = watcher.report(alloc)?;
    text.extend_from_slice(&report)?;
    Ok(text.push(b'\n')?)
}
