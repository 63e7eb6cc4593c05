// The calls on lists that take no function.
ghost use Rattle.std.specs.Prelude.{◌≡◌, ◌-◌, ◌≤◌, ◌<◌, IfSome, length, map, take, drop};
ghost use Rattle.sv_base.specs.declared.limits.TheConstants.{VALUE_SIZE_LIMIT};
ghost use Rattle.sv_value.specs.View.{view_of};
ghost use Rattle.sv_ops.specs.Lists as spec;
ghost use Rattle.sv_value.specs.Value.{items, vals, sizes};
ghost use Rattle.sv_value.specs.Words.{text_of};
ghost use Rattle.sv_ops.specs.Texts.{texts_of};
ghost use Rattle.sv_ops.specs.Answers.{Answers, FindsFirst, HasText};

use crate::compare::equality;
use crate::faults::{FaultKind, OpError};
use crate::given::Given;
use crate::make::list_costing;
use crate::members::{copy_items, count};
use crate::numbers::checked;
use crate::texts::{joined, text_or_fault};
use std::alloc::Global;
use sv_base::Text;
use sv_value::{List, Value};

/// Where a value first stands among some, and what the search costs; `None` where that can't be told.
fn searched(items: &[Value], value: &Value) -> Option<(Option<usize>, usize)>
    requires few { length items.now < VALUE_SIZE_LIMIT }
    requires small { sizes (vals (map view_of items.now)) < VALUE_SIZE_LIMIT }
    ensures found { FindsFirst result (spec.searched (map view_of items.now) (view_of value.now)) }
    ensures within { IfSome result (λ p. IfSome p.0 (λ n. n < length items.now)) }
{
    let mut cost = 0usize;
    for (n, item) in items.iter().enumerate() {
        let (same, walked) = equality(item, value)?;
        cost += walked;
        if same {
            return Some((Some(n), cost));
        }
    }
    Some((None, cost))
}

/// `includes`: whether a value stands in the list, by `===`; `CompareObjects` where that can't be told of an item in front.
pub fn includes(list: &List, value: &Value) -> Result<Given, OpError>
    ensures { Answers result (spec.includes (items list.now) (view_of value.now)) }
{
    match searched(list.items(), value) {
        Some((found, cost)) => Ok(Given {
            value: Value::Bool(found.is_some()),
            cost,
        }),
        None => Err(OpError::Fault(FaultKind::CompareObjects)),
    }
}

/// `indexOf`: where a value first stands in the list, by `===`, or -1; `CompareObjects` where that can't be told of an item in front.
pub fn index_of(list: &List, value: &Value) -> Result<Given, OpError>
    ensures { Answers result (spec.index_of (items list.now) (view_of value.now)) }
{
    let Some((found, cost)) = searched(list.items(), value) else {
        return Err(OpError::Fault(FaultKind::CompareObjects));
    };
    let Some(n) = found else {
        let Given { value, .. } = checked(-1)?;
        return Ok(Given { value, cost });
    };
    Ok(Given {
        value: count(n),
        cost,
    })
}

// A place in a list of so many items, a negative one from the end on, held within the list.
fn place_in(len: usize, at: i64) -> usize
    requires { len < VALUE_SIZE_LIMIT }
    ensures { result ≡ spec.place_in len at }
{
    if at < 0 {
        return len.saturating_sub(at.unsigned_abs() as usize);
    }
    len.min(at as usize)
}

/// `slice`: a new list of the items from a place up to another, which costs its items. A negative place counts from the end, and an
/// `undefined` second one is the end; `NotANumber` exactly where another value isn't a number.
pub fn slice(alloc: Global, list: &List, from: &Value, to: &Value) -> Result<Given, OpError>
    ensures { Answers result (spec.slice (items list.now) (view_of from.now) (view_of to.now)) }
{
    let items = list.items();
    let Value::Num(from) = from else {
        return Err(OpError::Fault(FaultKind::NotANumber));
    };
    let from = place_in(items.len(), from.get());
    match to {
        Value::Undefined => cut(alloc, items, from, items.len()),
        Value::Num(to) => cut(alloc, items, from, place_in(items.len(), to.get())),
        _ => Err(OpError::Fault(FaultKind::NotANumber)),
    }
}

fn cut(alloc: Global, items: &[Value], from: usize, to: usize) -> Result<Given, OpError>
    requires { to ≤ length items.now }
    ensures { Answers result (spec.cut (map view_of items.now) from to) }
{
    let mut made = Vec::new(alloc);
    copy_items(&mut made, part_of(items, from, to))?;
    let cost = made.len();
    list_costing(alloc, made, cost)
}

// The items from a place up to another, none where that stands in front.
fn part_of(items: &[Value], from: usize, to: usize) -> &[Value]
    requires { to ≤ length items.now }
    ensures { map view_of result.now ≡ take (to - from) (drop from (map view_of items.now)) }
{
    if from < to { &items[from..to] } else { &[] }
}

/// `concat`: a new list of the items of a list, and behind them those of another or one value, which costs its items; `Deep` or else
/// `Large`.
pub fn concat(alloc: Global, list: &List, value: &Value) -> Result<Given, OpError>
    ensures { Answers result (spec.concat (items list.now) (view_of value.now)) }
{
    let mut made = Vec::new(alloc);
    copy_items(&mut made, list.items())?;
    match value {
        Value::List(more) => copy_items(&mut made, more.items())?,
        _ => made.push(value.share()?)?,
    }
    let cost = made.len();
    list_costing(alloc, made, cost)
}

/// `join`: the texts of the items, none for `null` and `undefined`, with the text of a value between them, or a comma where it is `undefined`. It
/// costs the text's bytes; `NotText` where one has no text, or else `Large`.
pub fn join(alloc: Global, list: &List, value: &Value) -> Result<Given, OpError>
    ensures { Answers result (spec.join (items list.now) (view_of value.now)) }
{
    let texts = item_texts(alloc, list.items())?;
    let between = match value {
        Value::Undefined => Text::new(alloc, ",")?,
        _ => text_or_fault(alloc, value)?,
    };
    joined(alloc, between.as_str(), &texts)
}

fn item_texts(alloc: Global, items: &[Value]) -> Result<Vec<Text>, OpError>
    ensures { HasText (λ texts. texts.items) result (texts_of (map spec.joined_item (map view_of items.now))) }
{
    let mut texts = Vec::new(alloc);
    for item in items {
        texts.push(item_text(alloc, item)?)?;
    }
    Ok(texts)
}

fn item_text(alloc: Global, item: &Value) -> Result<Text, OpError>
    ensures { HasText (λ t. t) result (text_of (spec.joined_item (view_of item.now))) }
{
    match item {
        Value::Undefined | Value::Null => Ok(Text::new(alloc, "")?),
        _ => text_or_fault(alloc, item),
    }
}
