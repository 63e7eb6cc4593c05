// Whether the elements that match a selector are as a test expects.
ghost use Rattle.std.specs.Prelude.{◌≡◌, map, option_map, IfOk};
ghost use Rattle.sv_select.specs.Matching.{matches_in};
ghost use Rattle.sv_select.specs.Seen.{seen};
ghost use Rattle.sv_select.specs.Texts.{text_in};
ghost use Rattle.sv_select.specs.Verdict as spec;

use crate::matching::{Match, matches};
use crate::selector::Selector;
use crate::shown::shown_at;
use crate::texts::push_texts;
use std::alloc::Global;
use sv_base::{NoMemory, Text};
use sv_document::Node;
use sv_steps::Want;

/// What is said of an expectation.
#[derive(Drop)]
pub enum Verdict {
    /// It holds.
    Holds,
    /// Another number of elements was wanted than this one.
    Count(u64),
    /// No element matches.
    NoMatch,
    /// The texts below the first match are this one.
    Text(Text),
    /// The first match shows the attribute as this, or doesn't show it.
    Attribute(Option<Text>),
}

fn count_verdict(count: u32, found: usize) -> Verdict
    ensures { result ≡ spec.count_verdict count found }
{
    if found as u64 == u64::from(count) {
        Verdict::Holds
    } else {
        Verdict::Count(found as u64)
    }
}

fn text_verdict(alloc: Global, wanted: &str, children: &[Node]) -> Result<Verdict, NoMemory>
    ensures { IfOk result (λ verdict. verdict ≡ spec.text_verdict wanted.now (text_in children.now)) }
{
    let mut text = String::new(alloc);
    push_texts(&mut text, children)?;
    if text.as_str() == wanted {
        Ok(Verdict::Holds)
    } else {
        Ok(Verdict::Text(Text::new(alloc, text.as_str())?))
    }
}

fn is_same(shown: Option<&str>, wanted: &Option<Text>) -> bool
    ensures { result ≡ spec.is_same (option_map (λ t. t.now) shown.entry) wanted.now }
{
    match (shown, wanted) {
        (Some(shown), Some(wanted)) => shown == wanted.as_str(),
        (None, None) => true,
        _ => false,
    }
}

fn attribute_verdict(
    alloc: Global,
    wanted: &Option<Text>,
    shown: Option<&str>,
) -> Result<Verdict, NoMemory>
    ensures { IfOk result (λ verdict. verdict ≡ spec.attribute_verdict wanted.now (option_map (λ t. t.now) shown.entry)) }
{
    if is_same(shown, wanted) {
        return Ok(Verdict::Holds);
    }
    match shown {
        Some(shown) => Ok(Verdict::Attribute(Some(Text::new(alloc, shown)?))),
        None => Ok(Verdict::Attribute(None)),
    }
}

// The verdict on the elements that match.
fn verdict_on(alloc: Global, want: &Want, found: &[Match<'_>]) -> Result<Verdict, NoMemory>
    ensures { IfOk result (λ verdict. verdict ≡ spec.verdict_on want.now (map seen found.now)) }
{
    match want {
        Want::Count(count) => Ok(count_verdict(*count, found.len())),
        Want::Text(text) => match found.split_first() {
            Some((first, _)) => text_verdict(alloc, text.as_str(), first.children),
            None => Ok(Verdict::NoMatch),
        },
        Want::Attribute { name, shows } => match found.split_first() {
            Some((first, _)) => {
                attribute_verdict(alloc, shows, shown_at(first.element, name.as_str()))
            }
            None => Ok(Verdict::NoMatch),
        },
    }
}

/// The verdict on what is wanted of the elements among these nodes and below them that match a selector. `Count` comes with how many there
/// are, exactly where another number was wanted; of the other two wants `NoMatch` comes exactly where there is none, and `Text` and `Attribute`
/// with what the first one shows, exactly where that is something else.
pub fn judge(
    alloc: Global,
    nodes: &[Node],
    selector: &Selector,
    want: &Want,
) -> Result<Verdict, NoMemory>
    ensures { IfOk result (λ verdict. verdict ≡ spec.verdict_on want.now (matches_in selector.now nodes.now)) }
{
    let found = matches(alloc, nodes, selector)?;
    verdict_on(alloc, want, found.as_slice())
}
