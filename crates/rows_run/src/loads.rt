// What programs load to.
use crate::given::Given;
use std::alloc::Global;
use sv_ast::{Bundle, FileTree, SourceFile};
use sv_base::{Name, NoMemory};
use sv_load::{LoadError, load};
use sv_rows::{push_gap, push_part};

fn bundle(alloc: Global, root: &str, text: &[u8]) -> Result<Bundle, LoadError> {
    let (mut shelf, _) = Given::read(alloc, text)?.into_shelf_and_sink(alloc)?;
    load(alloc, &mut shelf, root)
}

/// The files of a program in the order of reading, each with its number and what it is; or why there is no program.
pub fn files(alloc: Global, root: &str, text: &[u8]) -> Result<String, NoMemory> {
    match bundle(alloc, root, text) {
        Ok(bundle) => listed(alloc, &bundle),
        Err(error) => refused(alloc, &error),
    }
}

fn listed(alloc: Global, bundle: &Bundle) -> Result<String, NoMemory> {
    let mut line = String::new(alloc);
    for file in bundle.files.as_slice() {
        push_gap(&mut line, ", ")?;
        push_file(&mut line, file)?;
    }
    Ok(line)
}

fn push_file(line: &mut String, file: &SourceFile) -> Result<(), NoMemory> {
    let (number, word) = match &file.tree {
        FileTree::Component(tree) => (tree.file, "component"),
        FileTree::Module(tree) => (tree.file, "module"),
    };
    Ok(write!(line, "{number} {word} {}", file.name.as_str())?)
}

/// How many files a program has, or why there is none.
pub fn count(alloc: Global, root: &str, text: &[u8]) -> Result<String, NoMemory> {
    match bundle(alloc, root, text) {
        Ok(bundle) => Ok(bundle.files.len().to_string(alloc)?),
        Err(error) => refused(alloc, &error),
    }
}

/// The names of a program by number, or why there is none.
pub fn names(alloc: Global, root: &str, text: &[u8]) -> Result<String, NoMemory> {
    match bundle(alloc, root, text) {
        Ok(bundle) => names_in(alloc, &bundle),
        Err(error) => refused(alloc, &error),
    }
}

fn names_in(alloc: Global, bundle: &Bundle) -> Result<String, NoMemory> {
    let mut line = String::new(alloc);
    for number in 0..bundle.names.len() {
        push_part(
            &mut line,
            " ",
            bundle.names.text(Name(number)).unwrap_or("?"),
        )?;
    }
    Ok(line)
}

fn refused(alloc: Global, error: &LoadError) -> Result<String, NoMemory> {
    match error {
        LoadError::Missing(name) => Ok(format!(in alloc; "missing {}", name.as_str())?),
        LoadError::TooLong(name) => Ok(format!(in alloc; "too long {}", name.as_str())?),
        LoadError::TooMany(name) => Ok(format!(in alloc; "too many {}", name.as_str())?),
        LoadError::Refused {
            file,
            kind,
            line,
            column,
        } => Ok(format!(in alloc; "{}:{line}:{column}: {kind}", file.as_str())?),
        LoadError::Failed => Ok(String::from_str(alloc, "failed")?),
        LoadError::NoMemory => Err(NoMemory),
    }
}
