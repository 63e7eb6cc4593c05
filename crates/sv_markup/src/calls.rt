// The public calls.
ghost use Rattle.std.specs.Prelude.{◌≡◌, ◌<◌, length, true};
ghost use Rattle.std.specs.Str.{is_utf8};
ghost use Rattle.sv_expr.specs.Limits.{real};
ghost use Rattle.sv_lex.specs.Bytes.{stopped_at};
ghost use Rattle.sv_markup.specs.Calls as spec;
ghost use Rattle.sv_markup.specs.Calls.{Answers, ComponentAt, ModuleFileAt, of_text};
ghost use Rattle.sv_markup.specs.Files as files;
ghost use Rattle.sv_script.specs.Calls.{input_of, RefusesAs};
ghost use Rattle.sv_script.specs.Script as script;

use crate::file::{Parts, top};
use std::alloc::Global;
use std::str;
use sv_ast::{Component, Kind, Module, ParseError, Refused, Script, Stmts};
use sv_base::{Names, Span, TEXT_LIMIT};
use sv_lex::Source;
use sv_list::Items;
use sv_script::parse_module_script;

// Whether bytes are UTF-8.
fn is_text(bytes: &[u8]) -> bool
    ensures { result ≡ is_utf8 bytes.now }
{
    match str::from_utf8(bytes) {
        Ok(_) => true,
        Err(_) => false,
    }
}

// The refusal of bytes that are no text.
fn no_text(file: u16) -> ParseError
    ensures { result ≡ ParseError.Refused (record { kind = Kind.NotUtf8; at = record { file = file; from = 0; to = 0 } }) }
{
    ParseError::Refused(Refused {
        kind: Kind::NotUtf8,
        at: Span {
            file,
            from: 0,
            to: 0,
        },
    })
}

// The statements of a script, of which there are none where there is no script.
fn statements(alloc: Global, found: Option<Stmts>) -> Stmts
    ensures { result ≡ spec.statements found }
{
    match found {
        Some(stmts) => stmts,
        None => Items::new(alloc),
    }
}

// The component that has these parts.
fn tree_of(alloc: Global, file: u16, found: Parts) -> Component
    ensures { result ≡ spec.component_of file found }
{
    let Parts { nodes, script, .. } = found;
    Component {
        file,
        script: Script {
            stmts: statements(alloc, script),
        },
        nodes,
    }
}

// The tree of a component whose bytes are text.
fn component(
    alloc: Global,
    names: &mut Names,
    file: u16,
    text: &[u8],
) -> Result<Component, ParseError>
    requires short { length text.now < TEXT_LIMIT }
    requires text { is_utf8 text.now ≡ true }
    ensures tree { Answers ComponentAt (input_of file text.now 0 names.old) result names.new }
    ensures refusal { RefusesAs (files.top real (input_of file text.now 0 names.old)) result }
{
    let mut source = Source::new(alloc, names, file, text, 0);
    let found = top(alloc, &mut source)?;
    let added = source.into_added();
    names.append(&added)?;
    Ok(tree_of(alloc, file, found))
}

/// The tree of a component (Svelte 4 docs, 'Svelte components', 'Basic markup' and 'Logic blocks'). The names in it go to
/// `names`, of which it takes those that are there. Bytes that are no UTF-8 are refused as `NotUtf8`. A text that has no
/// tree is refused where it can't go on, a tag or a block without an end where that begins, and then `names` stays as it
/// was. `Syntax`, `Unclosed` and `OutOfScope` say that it has none within any limits, `TooDeep` and `NumberTooWide` that it
/// came to a limit. Where memory runs out, `names` may have grown.
pub fn parse_component(
    alloc: Global,
    names: &mut Names,
    file: u16,
    bytes: &[u8],
) -> Result<Component, ParseError>
    requires { length bytes.now < TEXT_LIMIT }
    ensures tree { Answers ComponentAt (input_of file bytes.now 0 names.old) result names.new }
    ensures refusal { RefusesAs (of_text (files.top real) (input_of file bytes.now 0 names.old)) result }
{
    if !is_text(bytes) {
        return Err(no_text(file));
    }
    component(alloc, names, file, bytes)
}

/// The tree of a module (ECMA-262, 16.2): its imports, constants and functions. Else as `parse_component`.
pub fn parse_module(
    alloc: Global,
    names: &mut Names,
    file: u16,
    bytes: &[u8],
) -> Result<Module, ParseError>
    requires { length bytes.now < TEXT_LIMIT }
    ensures tree { Answers ModuleFileAt (input_of file bytes.now 0 names.old) result names.new }
    ensures refusal { RefusesAs (of_text (script.file_module real) (input_of file bytes.now 0 names.old)) result }
{
    if !is_text(bytes) {
        return Err(no_text(file));
    }
    let script = parse_module_script(alloc, names, file, bytes)?;
    Ok(Module { file, script })
}
