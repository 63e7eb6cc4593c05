// The public calls.
ghost use Rattle.std.specs.Prelude.{◌≡◌, ◌≤◌, ◌<◌, ◌+◌, ◌-◌, length, take, drop};
ghost use Rattle.sv_expr.specs.Limits.{real};
ghost use Rattle.sv_script.specs.Calls.{input_of, AnswersFile, AnswersPlace, RefusesAs};
ghost use Rattle.sv_script.specs.Closed.{ScriptAt, ModuleAt};
ghost use Rattle.sv_script.specs.Script as spec;

use crate::knot::{component, expression, file_module};
use std::alloc::Global;
use sv_ast::{Expr, ParseError, Script};
use sv_base::{NEST_LIMIT, Names, TEXT_LIMIT};
use sv_lex::Tokens;

// The statements of a component's script that begins at `from`.
fn script(
    alloc: Global,
    names: &mut Names,
    file: u16,
    text: &[u8],
    from: u32,
) -> Result<Script, ParseError>
    requires { from + length text.now < TEXT_LIMIT }
    ensures tree { AnswersFile ScriptAt (input_of file text.now from names.old) result names.new }
    ensures refusal { RefusesAs (spec.component real (input_of file text.now from names.old)) result }
{
    let mut tokens = Tokens::new(alloc, names, file, text, from);
    let stmts = component(alloc, &mut tokens)?;
    let added = tokens.into_added();
    names.append(&added)?;
    Ok(Script { stmts })
}

/// The tree of a component's script, which is the bytes from `from` to `to` (Svelte 4 docs, "Svelte components", "<script>";
/// ECMA-262, sections 13 to 16). The names in it go to `names`, of which it takes those that are there. A text that has no
/// tree is refused at the token that can't go on, and then `names` stays as it was. `Syntax` says that it has none within any
/// limits, `TooDeep` and `NumberTooWide` that it came to a limit. Where memory runs out, `names` may have grown.
pub fn parse_script(
    alloc: Global,
    names: &mut Names,
    file: u16,
    bytes: &[u8],
    from: u32,
    to: u32,
) -> Result<Script, ParseError>
    requires order { from ≤ to }
    requires range { to ≤ length bytes.now }
    requires short { length bytes.now < TEXT_LIMIT }
    ensures tree { AnswersFile ScriptAt (input_of file (drop from (take to bytes.now)) from names.old) result names.new }
    ensures refusal { RefusesAs (spec.component real (input_of file (drop from (take to bytes.now)) from names.old)) result }
{
    let text = &bytes[..to as usize];
    script(alloc, names, file, &text[from as usize..], from)
}

/// The tree of a module's script, which is all of the bytes: imports, constants and functions, given to others by `export` or
/// not. Else as `parse_script`.
pub fn parse_module_script(
    alloc: Global,
    names: &mut Names,
    file: u16,
    bytes: &[u8],
) -> Result<Script, ParseError>
    requires { length bytes.now < TEXT_LIMIT }
    ensures tree { AnswersFile ModuleAt (input_of file bytes.now 0 names.old) result names.new }
    ensures refusal { RefusesAs (spec.file_module real (input_of file bytes.now 0 names.old)) result }
{
    let mut tokens = Tokens::new(alloc, names, file, bytes, 0);
    let stmts = file_module(alloc, &mut tokens)?;
    let added = tokens.into_added();
    names.append(&added)?;
    Ok(Script { stmts })
}

/// The expression that begins at `from`, read as far as it goes, and the place behind it, where `open` constructs are open
/// round it already (ECMA-262, sections 13.2 to 13.15). `names` and the refusals are as for `parse_script`.
pub fn parse_expr_in(
    alloc: Global,
    names: &mut Names,
    file: u16,
    bytes: &[u8],
    from: u32,
    open: u32,
) -> Result<(Expr, u32), ParseError>
    requires range { from ≤ length bytes.now }
    requires short { length bytes.now < TEXT_LIMIT }
    requires room { «open» ≤ NEST_LIMIT }
    ensures tree { AnswersPlace (NEST_LIMIT - «open») (input_of file (drop from bytes.now) from names.old) result names.new }
    ensures refusal { RefusesAs (spec.expression real (NEST_LIMIT - «open») (input_of file (drop from bytes.now) from names.old)) result }
{
    let mut tokens = Tokens::new(alloc, names, file, &bytes[from as usize..], from);
    let tree = expression(alloc, &mut tokens, NEST_LIMIT - open as usize)?;
    let behind = tokens.at();
    let added = tokens.into_added();
    match names.append(&added) {
        Ok(()) => Ok((tree, behind)),
        Err(_) => {
            drop(tree);
            Err(ParseError::NoMemory)
        }
    }
}

/// `parse_expr_in` where no construct is open.
pub fn parse_expr(
    alloc: Global,
    names: &mut Names,
    file: u16,
    bytes: &[u8],
    from: u32,
) -> Result<(Expr, u32), ParseError>
    requires range { from ≤ length bytes.now }
    requires short { length bytes.now < TEXT_LIMIT }
    ensures tree { AnswersPlace NEST_LIMIT (input_of file (drop from bytes.now) from names.old) result names.new }
    ensures refusal { RefusesAs (spec.expression real NEST_LIMIT (input_of file (drop from bytes.now) from names.old)) result }
{
    parse_expr_in(alloc, names, file, bytes, from, 0)
}
