// The printed numbers of nodes.
ghost use Rattle.std.specs.Prelude.{◌≡◌, ◌+◌, IfOk, OnOk, OnErr};
ghost use Rattle.sv_document.specs.Numbers as spec;

use crate::marks::marks_of;
use crate::tree::Node;
use std::alloc::Global;
use std::collections::BTreeMap;
use std::marker::Model;
use std::mem;
use sv_base::NoMemory;

/// The printed numbers of the nodes of a page, by their marks, and the number that the next node gets. A clause sees the marks in
/// ascending order.
#[derive(Drop)]
pub struct Numbers {
    alloc: Global,
    given: BTreeMap<u64, u64>,
    next: u64,
}

impl Model for Numbers {
    ghost use Rattle.sv_document.specs.Numbers.{Numbers, numbers_code};

    ghost Value = { Numbers };

    ghost coded = { numbers_code };

    ghost view = { λ n. record { given = n.given.entries; next = n.next } };
}

impl Numbers {
    /// No node has a number, and the first one gets 1.
    pub fn new(alloc: Global) -> Numbers
        ensures { result ≡ spec.unnumbered }
    {
        Numbers {
            alloc,
            given: BTreeMap::new(alloc),
            next: 1,
        }
    }

    /// The number of the node with a mark, or `None` exactly where it has none.
    pub fn get(&self, mark: u64) -> Option<u64>
        ensures { result ≡ spec.number_of self.now mark }
    {
        self.given.get(&mark).copied()
    }

    /// Numbers the nodes of a page: one that has a number keeps it, and in document order each other one gets the next, which none
    /// had before. Nodes that are gone are forgotten. Where memory runs out, nothing changed.
    pub fn number(&mut self, nodes: &[Node]) -> Result<(), NoMemory>
        ensures ok { OnOk result (self.new ≡ spec.numbered nodes.now self.old) }
        ensures err { OnErr result (self.new ≡ self.old) }
    {
        let marks = marks_of(self.alloc, nodes)?;
        let mut now = self.emptied();
        now.take_over(self, marks.as_slice())?;
        let _ = mem::replace(self, now);
        Ok(())
    }

    // The same next number, and nothing numbered.
    fn emptied(&self) -> Numbers
        ensures { result ≡ spec.emptied self.now }
    {
        Numbers {
            alloc: self.alloc,
            given: BTreeMap::new(self.alloc),
            next: self.next,
        }
    }

    // The nodes with these marks keep the numbers that they had, or get the next ones.
    fn take_over(&mut self, old: &Numbers, marks: &[u64]) -> Result<(), NoMemory>
        ensures { OnOk result (self.new ≡ spec.taken_over old.now marks.now self.old) }
    {
        for mark in marks {
            self.give(*mark, old.get(*mark))?;
        }
        Ok(())
    }

    // A node gets the number that it had, or the next one.
    fn give(&mut self, mark: u64, old: Option<u64>) -> Result<(), NoMemory>
        ensures { OnOk result (self.new ≡ spec.given old mark self.old) }
    {
        let number = match old {
            Some(number) => number,
            None => self.take_next()?,
        };
        self.given.insert(mark, number)?;
        Ok(())
    }

    // The next number, which none gets again.
    fn take_next(&mut self) -> Result<u64, NoMemory>
        ensures number { IfOk result (λ number. number ≡ self.old.next) }
        ensures next { OnOk result (self.new ≡ record self.old { next = self.old.next + 1 }) }
    {
        let number = self.next;
        self.next = number.checked_add(1).ok_or(NoMemory)?;
        Ok(number)
    }
}
