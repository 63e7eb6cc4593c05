// Programs that are refused.
ghost use Rattle.std.specs.Prelude.{◌≡◌, ◌≢◌, ◌<◌, Some, length, slice_get, string_bytes, IfOk};
ghost use Rattle.sv_ast.specs.declared.files.SourceFile.{SourceFile as AnySource};
ghost use Rattle.sv_check.specs.Checked.{IsCause};
ghost use Rattle.sv_lines.specs.Lines.{LinesAscend};
ghost use Rattle.sv_load.specs.declared.refusals.LoadError.TheVariants as LoadError;
ghost use Rattle.sv_run.specs.Causes.{IsMistaken, load_answer, mistake_answer};
ghost use Rattle.sv_run.specs.Job.{answer_of, refusal_of, IsPlayable};

use crate::job::{Job, Refusal};
use crate::kinds::{check_word, parse_word};
use std::alloc::Global;
use sv_ast::{Bundle, Kind};
use sv_base::{NoMemory, Text};
use sv_io::ShelfError;
use sv_lines::place_of;
use sv_load::LoadError;
use sv_resolve::{CheckError, CheckRefusal};

/// The answer where the program has a mistake.
pub fn unclean(alloc: Global, bundle: &Bundle, error: &CheckError) -> Result<Job, ShelfError>
    requires cause { IsCause bundle.now error.now }
    requires lines { LinesAscend bundle.now.files }
    ensures answer { IfOk result (λ job. IsMistaken bundle.now (answer_of job)) }
    ensures playable { IfOk result IsPlayable }
    ensures failed { result ≢ Err ShelfError.Failed }
{
    match error {
        CheckError::Refused(mistake) => Ok(Job::Refuse(refused(alloc, bundle, mistake)?)),
        CheckError::NoMemory => Err(ShelfError::NoMemory),
    }
}

/// The answer where the program isn't loaded.
pub fn not_loaded(alloc: Global, error: &LoadError) -> Result<Job, ShelfError>
    ensures answer { IfOk result (λ job. load_answer error.now ≡ Some (answer_of job)) }
    ensures playable { IfOk result IsPlayable }
    ensures failed { result ≡ Err ShelfError.Failed → error.now ≡ LoadError.Failed }
{
    let refusal = match error {
        LoadError::Missing(name) => Refusal::Missing(copied(alloc, name)?),
        LoadError::TooLong(name) => Refusal::Source(copied(alloc, name)?, "TooLong"),
        LoadError::TooMany(name) => Refusal::Source(copied(alloc, name)?, "TooManyFiles"),
        LoadError::Refused {
            file,
            kind,
            line,
            column,
        } => no_tree(
            copied(alloc, file)?,
            *kind,
            *line as usize,
            *column as usize,
        ),
        LoadError::Failed => return Err(ShelfError::Failed),
        LoadError::NoMemory => return Err(ShelfError::NoMemory),
    };
    Ok(Job::Refuse(refusal))
}

// The refusal of a file without a tree. What isn't UTF-8 has no lines.
fn no_tree(file: String, kind: Kind, line: usize, column: usize) -> Refusal
    ensures { load_answer (LoadError.Refused (string_bytes file) kind line column) ≡ Some (refusal_of result) }
{
    let word = parse_word(kind);
    if kind == Kind::NotUtf8 {
        return Refusal::Source(file, word);
    }
    Refusal::SourceAt {
        file,
        line,
        column,
        word,
    }
}

// The refusal of a program with a mistake.
fn refused(alloc: Global, bundle: &Bundle, mistake: &CheckRefusal) -> Result<Refusal, NoMemory>
    requires there { mistake.now.at.file < length bundle.now.files }
    requires lines { LinesAscend bundle.now.files }
    ensures { IfOk result (λ refusal. (file : AnySource) → slice_get bundle.now.files mistake.now.at.file ≡ Some file → refusal_of refusal ≡ mistake_answer file mistake.now) }
{
    let file = &bundle.files.as_slice()[mistake.at.file as usize];
    let (line, column) = place_of(&file.lines, mistake.at.from);
    Ok(Refusal::SourceAt {
        file: copied(alloc, &file.name)?,
        line,
        column,
        word: check_word(mistake.kind),
    })
}

fn copied(alloc: Global, name: &Text) -> Result<String, NoMemory>
    ensures { IfOk result (λ text. string_bytes text ≡ name.now) }
{
    Ok(String::from_str(alloc, name.as_str())?)
}
