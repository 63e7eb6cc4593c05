// The functions with stained bodies, and which functions call which.
ghost use Rattle.std.specs.Prelude.{◌≡◌, ◌∷◌, ◌++◌, ◌<◌, ◌^◌, [], IfOk, OnOk, All, length, map, slice_index_or, slice_set, if◌then◌else◌};
ghost use Rattle.std.specs.List.{list_any, filter_map, range_with_len};
ghost use Rattle.std.specs.Option.{option_to_list};
ghost use Rattle.sv_ast.specs.Files.{statements_of};
ghost use Rattle.sv_effects.specs.Calls as spec;
ghost use Rattle.sv_effects.specs.Functions.{functions as all_functions};
ghost use Rattle.sv_effects.specs.Known.{known as all_known};
ghost use Rattle.sv_effects.specs.Stains as stain;
ghost use Rattle.sv_effects.specs.Top.{top_of};
ghost use Rattle.sv_graph.specs.Links.{AddsLinks, IsTurned};

use crate::functions::Function;
use crate::notes::Sign;
use crate::top::Top;
use std::alloc::Global;
use sv_ast::{Bundle, Ref};
use sv_base::{Names, NoMemory};
use sv_graph::unlinked;
use sv_list::Items;
use sv_names::NameMap;

/// The functions whose bodies are stained, by number, and for each function those that call it.
#[derive(Drop)]
pub(crate) struct Calls {
    pub(crate) stained: Vec<u32>,
    pub(crate) callers: Vec<Items<u32>>,
}

/// Looks at the signs of all functions.
pub(crate) fn calls_of(
    alloc: Global,
    bundle: &Bundle,
    functions: &[Function],
    known: &[NameMap],
) -> Result<Calls, NoMemory>
    requires functions { functions.now ≡ all_functions bundle.now }
    requires few { length functions.now < 2 ^ 32 }
    requires known { known.now ≡ map (all_known bundle.now) (range_with_len 0 (length bundle.now.files)) }
    ensures { IfOk result (λ calls. spec.AreCalls bundle.now calls) }
{
    let stained = stained_of(alloc, bundle, functions, known)?;
    let callers = callers_of(alloc, functions, known)?;
    Ok(Calls { stained, callers })
}

// The functions with stained bodies.
fn stained_of(
    alloc: Global,
    bundle: &Bundle,
    functions: &[Function],
    known: &[NameMap],
) -> Result<Vec<u32>, NoMemory>
    requires functions { functions.now ≡ all_functions bundle.now }
    requires few { length functions.now < 2 ^ 32 }
    requires known { known.now ≡ map (all_known bundle.now) (range_with_len 0 (length bundle.now.files)) }
    ensures { IfOk result (λ stained. stained.items ≡ spec.points_from (stain.is_stained bundle.now) 0 functions.now) }
{
    let tops = tops_of(alloc, bundle)?;
    let mut stained = Vec::new(alloc);
    for (point, function) in functions.iter().enumerate() {
        let is_stained = is_stained(bundle, &tops, known, function);
        push_if(&mut stained, is_stained, point as u32)?;
    }
    Ok(stained)
}

fn push_if(points: &mut Vec<u32>, is_wanted: bool, point: u32) -> Result<(), NoMemory>
    ensures { OnOk result (points.new.items ≡ points.old.items ++ (if is_wanted then point ∷ [] else [])) }
{
    if is_wanted {
        points.push(point)?;
    }
    Ok(())
}

// What the top levels of the files declare.
fn tops_of(alloc: Global, bundle: &Bundle) -> Result<Vec<Top>, NoMemory>
    ensures { IfOk result (λ tops. tops.items ≡ map (λ source. top_of (statements_of source.tree)) bundle.now.files) }
{
    let files = bundle.files.as_slice();
    let mut tops = Vec::new(alloc);
    for source in files {
        tops.push(Top::new(alloc, source.tree.statements())?)?;
    }
    Ok(tops)
}

// Whether the body of a function is stained.
fn is_stained(bundle: &Bundle, tops: &[Top], known: &[NameMap], function: &Function) -> bool
    requires tops { tops.now ≡ map (λ source. top_of (statements_of source.tree)) bundle.now.files }
    requires known { known.now ≡ map (all_known bundle.now) (range_with_len 0 (length bundle.now.files)) }
    requires file { function.now.file < length bundle.now.files }
    requires in_tops { function.now.file < length tops.now }
    requires in_known { function.now.file < length known.now }
    ensures { result ≡ stain.is_stained bundle.now function.now }
{
    let file = function.file;
    is_any_stain(
        &bundle.names,
        &tops[file],
        &known[file],
        function.signs.as_slice(),
    )
}

fn is_any_stain(names: &Names, top: &Top, known: &NameMap, signs: &[Sign]) -> bool
    ensures { result ≡ list_any (stain.stains_among names.now top.now known.now) signs.now }
{
    for sign in signs {
        if is_stain(names, top, called(known, *sign).is_some(), *sign) {
            return true;
        }
    }
    false
}

/// Whether a sign stains a body, where the function that it calls or hands on is known, or isn't.
pub(crate) fn is_stain(names: &Names, top: &Top, is_known: bool, sign: Sign) -> bool
    ensures { result ≡ stain.stains names.now top.now is_known sign }
{
    match sign {
        Sign::Reads(Ref::Store(_)) | Sign::Sets(_) | Sign::Breaks => true,
        Sign::Reads(name) => top.is_variable(name),
        Sign::Calls(name) => !is_known && !top.is_free_call(names, name),
        Sign::Hands(_) => !is_known,
    }
}

// For each function those that call it.
fn callers_of(
    alloc: Global,
    functions: &[Function],
    known: &[NameMap],
) -> Result<Vec<Items<u32>>, NoMemory>
    requires few { length functions.now < 2 ^ 32 }
    requires files { All (λ f. f.file < length known.now) functions.now }
    requires within { All (λ points. All (λ k. k.1 < length functions.now) points) known.now }
    ensures size { IfOk result (λ callers. length callers.items ≡ length functions.now) }
    ensures turned { IfOk result (λ callers. IsTurned (map (spec.calls_in known.now) functions.now) callers.items) }
{
    let mut callers = unlinked(alloc, functions.len())?;
    for (point, function) in functions.iter().enumerate() {
        let file = function.file;
        let signs = function.signs.as_slice();
        note_calls(&mut callers, &known[file], signs, point as u32)?;
    }
    Ok(callers)
}

// Notes a function as a caller of all that its signs call.
fn note_calls(
    callers: &mut Vec<Items<u32>>,
    known: &NameMap,
    signs: &[Sign],
    point: u32,
) -> Result<(), NoMemory>
    requires within { All (λ k. k.1 < length callers.old.items) known.now }
    ensures size { length callers.new.items ≡ length callers.old.items }
    ensures callers { OnOk result (AddsLinks callers.old.items (filter_map (stain.called known.now) signs.now) point callers.new.items) }
{
    for sign in signs {
        note_call(callers, known, *sign, point)?;
    }
    Ok(())
}

// Notes a function as a caller of what one sign calls.
fn note_call(
    callers: &mut Vec<Items<u32>>,
    known: &NameMap,
    sign: Sign,
    point: u32,
) -> Result<(), NoMemory>
    requires within { All (λ k. k.1 < length callers.old.items) known.now }
    ensures size { length callers.new.items ≡ length callers.old.items }
    ensures callers { OnOk result (AddsLinks callers.old.items (option_to_list (stain.called known.now sign)) point callers.new.items) }
{
    match called(known, sign) {
        Some(of) => add_caller(callers, of, point),
        None => Ok(()),
    }
}

// Notes a function as a caller of another.
fn add_caller(callers: &mut Vec<Items<u32>>, of: usize, point: u32) -> Result<(), NoMemory>
    requires { of < length callers.old.items }
    ensures size { length callers.new.items ≡ length callers.old.items }
    ensures added { OnOk result (callers.new.items ≡ slice_set callers.old.items of (slice_index_or callers.old.items of [] ++ point ∷ [])) }
{
    callers[of].push(point)?;
    Ok(())
}

fn called(known: &NameMap, sign: Sign) -> Option<usize>
    ensures { result ≡ stain.called known.now sign }
{
    match sign {
        Sign::Calls(name) | Sign::Hands(name) => known.get(name),
        Sign::Reads(_) | Sign::Sets(_) | Sign::Breaks => None,
    }
}
