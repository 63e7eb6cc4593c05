// The rows of each blocks.
ghost use Rattle.std.specs.Prelude.{◌≡◌, option_map};
ghost use Rattle.sv_names.specs.Locals.{names_of};
ghost use Rattle.sv_fragments.specs.Around.{seen};
ghost use Rattle.sv_fragments.specs.Frags as spec;
ghost use Rattle.sv_lower.specs.Does.{Makes};

use crate::around::{Around, Tables};
use crate::parts::{list_names, optional_part, part_of};
use sv_ast::{Expr, Named};
use sv_base::{Name, NoMemory};
use sv_code::{Frag, Frags, Part};
use sv_names::{Distinct, LocalScope};

/// An each block without what its rows hold.
#[derive(Clone, Copy)]
pub(crate) struct Listed<'a> {
    pub list: &'a Expr,
    pub item: &'a Named,
    pub index: &'a Option<Named>,
    pub key: &'a Option<Expr>,
}

/// The head of an each block: its list and its key.
#[derive(Drop)]
pub(crate) struct Head {
    pub list: Part,
    pub key: Option<Part>,
}

/// The list of an each block with its rows.
#[derive(Drop)]
pub(crate) struct Row {
    pub list: Part,
    pub item: Name,
    pub index: Option<Name>,
    pub key: Option<Part>,
    pub body: Frags,
}

/// The head of an each block, whose rows have these names.
#[tactic(auto, unfolding(crate::specs::Frags::head))]
pub(crate) fn make_head(
    tables: &mut Tables,
    around: &Around<'_>,
    locals: &LocalScope<'_>,
    names: &Distinct,
    of: &Listed<'_>,
) -> Result<Head, NoMemory>
    ensures { Makes result (spec.head names.now of.now.list.now of.now.key.now (seen around.now) (names_of locals.now) tables.old) tables.new }
{
    let key = of.key.as_ref();
    let looks = list_names(around.alloc, names, of.list, key)?;
    let list = part_of(tables, around, locals, looks.as_slice(), of.list)?;
    let inside = LocalScope::inside(&*locals, names);
    let key = optional_part(tables, around, &inside, key)?;
    Ok(Head { list, key })
}

/// A list with its rows.
pub(crate) fn row_of(head: Head, of: &Listed<'_>, body: Frags) -> Row
    ensures { result ≡ spec.row_of of.now.item.now of.now.index.now head body }
{
    Row {
        list: head.list,
        item: of.item.name,
        index: of.index.map(|index| index.name),
        key: head.key,
        body,
    }
}

/// An each block with these rows, and what shows for an empty list.
pub(crate) fn each_of(row: Row, none: Option<Frags>) -> Frag
    ensures { result ≡ spec.with_none row none }
{
    Frag::Each {
        list: row.list,
        item: row.item,
        index: row.index,
        key: row.key,
        body: row.body,
        none,
    }
}
