// What is shown of the instances of a page.
ghost use Rattle.std.specs.Prelude.{◌≡◌, option_map, option_copied, IfOk, OnOk, OnErr};
ghost use Rattle.sv_view.specs.View.{inst_number};
ghost use Rattle.sv_shapes.specs.Showing as spec;

use crate::lay::lay_all;
use crate::places;
use crate::shape::Shapes;
use crate::shown::{Child, Shown};
use std::alloc::Global;
use std::collections::BTreeMap;
use std::marker::Model;
use sv_base::NoMemory;
use sv_list::Items;
use sv_tokens::Typed;
use sv_value::Inst;
use sv_view::View;

/// What is shown of the instances of a page, and the children that stand at the places of their component tags. Calls take any instance and
/// any place: what isn't there changes nothing.
#[derive(Drop)]
pub struct Showing {
    alloc: Global,
    shown: BTreeMap<u64, Shown>,
    children: BTreeMap<u64, Child>,
}

impl Model for Showing {
    ghost use Rattle.std.specs.Coded.{codes};
    ghost use Rattle.sv_shapes.specs.Showing.{Showing};
    ghost use Rattle.sv_shapes.specs.contracts.shown.Shown as entry;

    ghost Value = { Showing };

    ghost coded = { Prim.hlevel (codes, entry.the_row.coded) };

    ghost view = { λ s. record { shown = s.shown.entries; children = s.children.entries } };
}

impl Showing {
    /// Nothing is shown.
    pub fn new(alloc: Global) -> Showing
        ensures { result ≡ spec.nothing }
    {
        Showing {
            alloc,
            shown: BTreeMap::new(alloc),
            children: BTreeMap::new(alloc),
        }
    }

    /// What is shown of an instance, or `None` exactly where nothing is.
    pub fn get(&self, inst: Inst) -> Option<&Shown>
        ensures { option_copied result ≡ spec.shown_of self.now inst.number }
    {
        self.shown.get(&inst.number)
    }

    /// An instance is shown on this view. Where memory runs out, nothing changed.
    pub fn record(&mut self, inst: Inst, view: View, parts: Shapes) -> Result<(), NoMemory>
        ensures ok { OnOk result (self.new ≡ spec.recorded self.old inst.number view parts) }
        ensures err { OnErr result (self.new ≡ self.old) }
    {
        self.shown.insert(inst.number, Shown { view, parts })?;
        Ok(())
    }

    /// An instance is shown no more.
    pub fn remove(&mut self, inst: Inst)
        ensures { self.new ≡ spec.removed self.old inst.number }
    {
        self.shown.remove(&inst.number);
    }

    /// A user left a state in the element with this mark. Where memory runs out, nothing changed.
    pub fn lay(&mut self, inst: Inst, mark: u64, typed: &Typed) -> Result<(), NoMemory>
        ensures ok { OnOk result (self.new ≡ spec.laid_on self.old inst.number mark typed.now) }
        ensures err { OnErr result (self.new ≡ self.old) }
    {
        match self.get(inst) {
            Some(shown) => {
                let view = shown.view.share()?;
                let parts = lay_all(self.alloc, mark, typed, shown.parts.as_slice())?;
                self.record(inst, view, parts)
            }
            None => Ok(()),
        }
    }

    /// The places of the component tags in what is shown of an instance, in document order; `NoMemory` comes only where memory runs out.
    pub fn places(&self, inst: Inst) -> Result<Items<u64>, NoMemory>
        ensures { IfOk result (λ found. found ≡ spec.places_of self.now inst.number) }
    {
        match self.get(inst) {
            Some(shown) => places::places_of(self.alloc, shown.parts.as_slice()),
            None => Ok(Items::new(self.alloc)),
        }
    }

    /// The child at a place, or `None` exactly where none is. Its key is a hint that no clause promises.
    pub fn child(&self, place: u64) -> Option<Inst>
        ensures { option_map inst_number result ≡ spec.child_at self.now place }
    {
        let child = self.children.get(&place)?;
        Some(child.inst())
    }

    /// Puts a child at a place. Where memory runs out, nothing changed.
    pub fn put_child(&mut self, place: u64, inst: Inst) -> Result<(), NoMemory>
        ensures ok { OnOk result (self.new ≡ spec.with_child self.old place inst.number) }
        ensures err { OnErr result (self.new ≡ self.old) }
    {
        self.children.insert(place, Child::new(inst))?;
        Ok(())
    }

    /// Takes the child at a place away; `None` exactly where none was. Its key is a hint that no clause promises.
    pub fn take_child(&mut self, place: u64) -> Option<Inst>
        ensures child { option_map inst_number result ≡ spec.child_at self.old place }
        ensures taken { self.new ≡ spec.without_child self.old place }
    {
        let child = self.children.remove(&place)?;
        Some(child.inst())
    }
}
