// The names of pure functions.
ghost use Rattle.std.specs.Prelude.{◌≡◌, ◌<◌, IfOk, All, false, length, map, slice_index_or};
ghost use Rattle.sv_effects.specs.Known.{names_without as spec_names_without};
ghost use Rattle.sv_effects.specs.Stains.{ArePure};

use crate::functions::functions_of;
use crate::known::{known_of, names_without};
use crate::stains::calls_of;
use std::alloc::Global;
use sv_ast::{Bundle, RefList};
use sv_base::NoMemory;
use sv_graph::reached;
use sv_list::Items;
use sv_names::NameMap;

/// For each file of a bundle, by its place there, the names that stand for pure functions in it, each once: its own functions in the
/// order of the text, and behind them those that it imports, by their local names. `NoMemory` comes where memory runs out, or of a
/// number below 2^32 for each function.
///
/// A function may be pure if it is declared at the top level, by `function` or as a constant whose value is an arrow, or imported
/// between braces from a module that gives it. `./x.js` names the module `x.js`. It is pure unless a chain of calls leads from it to a
/// stained body, which may be its own. A body calls what it calls by name and what it hands to a call on a list as its function, in
/// arrows and functions inside it too. It is stained where it reads a variable of its component (by `let`, `export let` or
/// `$: x = e`) or a store `$x`, assigns a name that it doesn't declare itself, or has a call that wouldn't be pure even if each function
/// that is known there were, as that of `console.log`. `String` and `Boolean` may be called where the file doesn't declare them: a body that
/// hands them on is stained.
///
/// The rule is this project's own: a part of a page is evaluated again where a variable that it names has changed, so a call that
/// reads another one would leave it as it was.
pub fn pure_functions(alloc: Global, bundle: &Bundle) -> Result<Items<RefList>, NoMemory>
    ensures { IfOk result (λ lists. ArePure bundle.now lists) }
{
    let functions = functions_of(alloc, bundle)?;
    if functions.as_slice().len() > u32::MAX as usize {
        return Err(NoMemory);
    }
    let known = known_of(alloc, bundle, functions.as_slice())?;
    let calls = calls_of(alloc, bundle, functions.as_slice(), &known)?;
    let spoiled = reached(alloc, &calls.callers, &calls.stained)?;
    pure_names(alloc, &known, &spoiled)
}

// The names in each file that stand for functions that aren't spoiled.
fn pure_names(
    alloc: Global,
    known: &[NameMap],
    spoiled: &[bool],
) -> Result<Items<RefList>, NoMemory>
    requires { All (λ points. All (λ k. k.1 < length spoiled.now) points) known.now }
    ensures { IfOk result (λ lists. lists ≡ map (spec_names_without (λ p. slice_index_or spoiled.now p false)) known.now) }
{
    let mut lists = Items::new(alloc);
    for names in known {
        lists.push(names_without(alloc, names, spoiled)?)?;
    }
    Ok(lists)
}
