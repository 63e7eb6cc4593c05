//! The program `svp`: it reads a root component and a file of recorded events, and prints the page after mounting and
//! after each event; or it checks a root component with all that it imports, lists what it is compiled to, prints its first page, or plays a
//! test of it. `run` of `sv_run` carries what is promised; `main` gives it the words of the command line, the present folder and standard output.
#![tactic(auto)]

ghost use Rattle.std.specs.Prelude.{◌≡◌};
ghost use Rattle.svp.specs.Status.{code_of};

use std::io::ErrorKind;
use std::process::ExitCode;
use std::{env, io};
use sv_base::NoMemory;
use sv_io::{DirShelf, StdSink};
use sv_run::{Status, run};

// The words of the command line, or none where one of them isn't text, since no form has such a word.
fn words_of(rt: &HostRuntime) -> Result<Vec<String>, NoMemory> {
    match env::args(rt) {
        Ok(args) => Ok(args.skip(1).collect(rt.alloc())?),
        Err(error) if error.kind() == ErrorKind::OutOfMemory => Err(NoMemory),
        Err(_) => Ok(Vec::new(rt.alloc())),
    }
}

fn status_of(rt: &HostRuntime) -> Result<Status, NoMemory> {
    let words = words_of(rt)?;
    let mut shelf = DirShelf::new(rt.clone()?);
    let mut out = StdSink::new(rt.clone()?);
    Ok(run(rt.alloc(), &words, &mut shelf, &mut out))
}

// The exit status: 0 to 8, or 10.
fn exit_code(status: Status) -> u8
    ensures { result ≡ code_of status }
{
    status as u8
}

fn main(rt: HostRuntime) -> ExitCode {
    let status = status_of(&rt).unwrap_or(Status::NoMemory);
    ExitCode::from(exit_code(status))
}
