// The depth and the size of values that are put together.
ghost use Rattle.std.specs.Prelude.{◌≡◌, ◌+◌, ◌<◌, ◌≤◌, ◌↔◌, max, min, map, Some, None};
ghost use Rattle.sv_value.specs.Value.{vals, fields, depths, sizes, field_depths, field_sizes};
ghost use Rattle.sv_base.specs.declared.limits.TheConstants.{VALUE_SIZE_LIMIT};
ghost use Rattle.sv_value.specs.View.{view_of, entry_of};

use crate::fault::ValueFault;
use crate::value::Value;
use sv_base::{Text, VALUE_DEPTH_LIMIT, VALUE_SIZE_LIMIT};

/// The greatest depth of some values, and their size together, counted up to the limit.
#[derive(Clone, Copy)]
pub(crate) struct Measure {
    pub(crate) deepest: u32,
    pub(crate) total: u32,
    ghost capped: { total ≤ VALUE_SIZE_LIMIT },
}

impl Measure {
    ghost use Rattle.sv_value.specs.Measured.{Measures};

    fn new() -> Measure
        ensures { Measures result 0 0 }
    {
        Measure {
            deepest: 0,
            total: 0,
        }
    }

    fn add(&mut self, depth: u32, size: usize)
        ensures deepest { self.new.deepest ≡ max self.old.deepest depth }
        ensures total { self.new.total ≡ min VALUE_SIZE_LIMIT (self.old.total + size) }
    {
        if self.deepest < depth {
            self.deepest = depth;
        }
        let room = VALUE_SIZE_LIMIT - self.total;
        if size < room as usize {
            self.total += size as u32;
        } else {
            self.total = VALUE_SIZE_LIMIT;
        }
    }

    /// Why no list, object or function may hold these values.
    pub(crate) fn fault(self) -> Option<ValueFault>
        ensures deep { result ≡ Some ValueFault.Deep ↔ (VALUE_DEPTH_LIMIT ≤ self.deepest) }
        ensures large { result ≡ Some ValueFault.Large ↔ ((self.deepest < VALUE_DEPTH_LIMIT) × (VALUE_SIZE_LIMIT ≤ self.total)) }
        ensures fits { result ≡ None ↔ ((self.deepest < VALUE_DEPTH_LIMIT) × (self.total < VALUE_SIZE_LIMIT)) }
    {
        if self.deepest >= VALUE_DEPTH_LIMIT {
            Some(ValueFault::Deep)
        } else if self.total >= VALUE_SIZE_LIMIT {
            Some(ValueFault::Large)
        } else {
            None
        }
    }

    /// The measure of the items of a list.
    pub(crate) fn of_items(items: &[Value]) -> Measure
        ensures { let tree = vals (map view_of items.now) in Measures result (depths tree) (sizes tree) }
    {
        let mut measure = Measure::new();
        for item in items {
            measure.add(item.depth(), item.size());
        }
        measure
    }

    /// The measure of the fields of an object.
    pub(crate) fn of_fields(pairs: &[(Text, Value)]) -> Measure
        ensures { let tree = fields (map entry_of pairs.now) in Measures result (field_depths tree) (field_sizes tree) }
    {
        let mut measure = Measure::new();
        for pair in pairs {
            measure.add(0, pair.0.as_str().len());
            measure.add(pair.1.depth(), pair.1.size());
        }
        measure
    }
}
