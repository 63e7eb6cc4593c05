// Reads one file.
ghost use Rattle.std.specs.Prelude.{◌≡◌, ◌≢◌, ◌<◌, ◌≤◌, length, true, IfOk, IfSome};
ghost use Rattle.sv_io.specs.Faults.{Rose};
ghost use Rattle.sv_lines.specs.Lines.{ascends};
ghost use Rattle.sv_load.specs.Calls.{bytes_of, opened_of, Parses};
ghost use Rattle.sv_load.specs.Imports as spec;
ghost use Rattle.sv_load.specs.Loads as loads;
ghost use Rattle.sv_load.specs.Loads.{Finds, Holds, Opens, Tells};
ghost use Rattle.sv_script.specs.Calls.{input_of};

use crate::imports::is_module;
use crate::refusals::LoadError;
use std::alloc::Global;
use sv_ast::{FileTree, ParseError, Refused, SourceFile};
use sv_base::{FILE_COUNT_LIMIT, FILE_LIMIT, Names, NoMemory, TEXT_LIMIT, Text, line_col};
use sv_io::{Got, Shelf, ShelfError};
use sv_lines::line_starts;
use sv_markup::{parse_component, parse_module};

// The bytes of a file.
fn find<F: Shelf>(alloc: Global, shelf: &mut F, name: &Text) -> Result<Vec<u8>, LoadError>
    ensures found { IfSome (F.files shelf.old) (λ files. Tells (Finds files name.now) (bytes_of result)) }
    ensures short { IfOk result (λ bytes. length bytes.items ≤ FILE_LIMIT) }
    ensures same { F.files shelf.new ≡ F.files shelf.old }
    ensures later { F.faults shelf.old ≤ F.faults shelf.new }
    ensures failed { result ≡ Err LoadError.Failed → Rose (F.faults shelf.old) (F.faults shelf.new) }
{
    match shelf.read(alloc, name.as_str(), FILE_LIMIT) {
        Ok(Got::Bytes(bytes)) => Ok(bytes),
        Ok(Got::Missing) => Err(LoadError::Missing(name.share()?)),
        Ok(Got::TooLong) => Err(LoadError::TooLong(name.share()?)),
        Err(ShelfError::Failed) => Err(LoadError::Failed),
        Err(ShelfError::NoMemory) => Err(LoadError::NoMemory),
    }
}

// The tree of a file, which is a module or a component by its name.
fn parse(
    alloc: Global,
    names: &mut Names,
    number: u16,
    name: &Text,
    bytes: &[u8],
) -> Result<FileTree, ParseError>
    requires { length bytes.now < TEXT_LIMIT }
    ensures { Parses (spec.is_module name.now) (input_of number bytes.now 0 names.old) result names.new }
{
    if is_module(name.as_str()) {
        let module = parse_module(alloc, names, number, bytes)?;
        Ok(FileTree::Module(module))
    } else {
        let component = parse_component(alloc, names, number, bytes)?;
        Ok(FileTree::Component(component))
    }
}

// The refusal of a file that has no tree.
fn refusal(name: &Text, bytes: &[u8], cause: Refused) -> Result<LoadError, NoMemory>
    requires { length bytes.now < TEXT_LIMIT }
    ensures { IfOk result (λ error. error ≡ loads.refusal name.now bytes.now cause) }
{
    let at = cause.at.from.min(bytes.len() as u32);
    let (line, column) = line_col(bytes, at);
    Ok(LoadError::Refused {
        file: name.share()?,
        kind: cause.kind,
        line,
        column,
    })
}

// What the bytes of a file come to.
fn source_file(
    alloc: Global,
    names: &mut Names,
    number: u16,
    name: &Text,
    bytes: &[u8],
) -> Result<SourceFile, LoadError>
    requires { length bytes.now < TEXT_LIMIT }
    ensures holds { Tells (Holds number name.now bytes.now names.old) (opened_of result names.new) }
    ensures lines { IfOk result (λ file. ascends file.lines ≡ true) }
    ensures tried { result ≢ Err LoadError.Failed }
{
    let tree = match parse(alloc, names, number, name, bytes) {
        Ok(tree) => tree,
        Err(ParseError::Refused(cause)) => return Err(refusal(name, bytes, cause)?),
        Err(ParseError::NoMemory) => return Err(LoadError::NoMemory),
    };
    let lines = line_starts(alloc, bytes)?;
    let name = name.share()?;
    Ok(SourceFile { name, lines, tree })
}

/// The file of this name, where so many were read before, with its names behind those that are there. It is read only
/// where it would be none too many.
pub fn open<F: Shelf>(
    alloc: Global,
    shelf: &mut F,
    names: &mut Names,
    number: usize,
    name: &Text,
) -> Result<SourceFile, LoadError>
    ensures opens { IfSome (F.files shelf.old) (λ files. Tells (Opens files number name.now names.old) (opened_of result names.new)) }
    ensures lines { IfOk result (λ file. ascends file.lines ≡ true) }
    ensures few { IfOk result (λ file. number < FILE_COUNT_LIMIT) }
    ensures same { F.files shelf.new ≡ F.files shelf.old }
    ensures later { F.faults shelf.old ≤ F.faults shelf.new }
    ensures failed { result ≡ Err LoadError.Failed → Rose (F.faults shelf.old) (F.faults shelf.new) }
{
    if number >= FILE_COUNT_LIMIT {
        return Err(LoadError::TooMany(name.share()?));
    }
    let bytes = find(alloc, shelf, name)?;
    source_file(alloc, names, number as u16, name, &bytes)
}
