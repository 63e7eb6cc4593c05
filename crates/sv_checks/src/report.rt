// What was printed of a test so far.
ghost use Rattle.std.specs.Prelude.{◌≡◌, [], IfOk, OnOk};
ghost use Rattle.sv_checks.specs.Report as spec;

use crate::deed::Check;
use crate::lines::{push_line, push_sums};
use std::alloc::Global;
use std::marker::Model;
use sv_base::NoMemory;
use sv_document::Node;
use sv_select::{Verdict, judge};

/// The lines of a test so far, how many expectations held, and how many didn't. A clause sees the lines as their bytes.
#[derive(Drop)]
pub struct Report {
    alloc: Global,
    text: Vec<u8>,
    passed: u64,
    failed: u64,
}

impl Model for Report {
    ghost use Rattle.sv_checks.specs.Report.{Report};

    ghost Value = { Report };

    ghost view = { λ r. record { text = r.text.items; passed = r.passed; failed = r.failed } };
}

fn one_more(count: u64) -> Result<u64, NoMemory>
    ensures { IfOk result (λ more. more ≡ spec.one_more count) }
{
    count.checked_add(1).ok_or(NoMemory)
}

fn holds(verdict: &Verdict) -> bool
    ensures { result ≡ spec.holds verdict.now }
{
    match verdict {
        Verdict::Holds => true,
        Verdict::Count(_) | Verdict::NoMatch | Verdict::Text(_) | Verdict::Attribute(_) => false,
    }
}

impl Report {
    /// Nothing was checked yet.
    pub fn new(alloc: Global) -> Report
        ensures { result ≡ spec.empty }
    {
        Report {
            alloc,
            text: Vec::new(alloc),
            passed: 0,
            failed: 0,
        }
    }

    // The line of a step that was judged, and the sums with it.
    fn put(&mut self, at: u64, verdict: &Verdict) -> Result<(), NoMemory>
        ensures { OnOk result (self.new ≡ spec.judged at verdict.now self.old) }
    {
        push_line(self.alloc, &mut self.text, at, verdict)?;
        if holds(verdict) {
            self.passed = one_more(self.passed)?;
        } else {
            self.failed = one_more(self.failed)?;
        }
        Ok(())
    }

    /// A check of a page that shows these nodes, by the number of its step.
    pub fn check(&mut self, at: u64, nodes: &[Node], check: &Check<'_>) -> Result<(), NoMemory>
        ensures { OnOk result (self.new ≡ spec.checked at nodes.now check.now.selector check.now.want.now self.old) }
    {
        let verdict = judge(self.alloc, nodes, &check.selector, check.want)?;
        self.put(at, &verdict)
    }

    /// The last line.
    pub fn finish(&mut self) -> Result<(), NoMemory>
        ensures { OnOk result (self.new ≡ spec.finished self.old) }
    {
        push_sums(self.alloc, &mut self.text, self.passed, self.failed)
    }

    /// Whether an expectation didn't hold.
    pub fn is_failed(&self) -> bool
        ensures { result ≡ spec.is_failed self.now }
    {
        self.failed > 0
    }

    /// The lines so far.
    pub fn text(&self) -> &[u8]
        ensures { result.now ≡ self.now.text }
    {
        self.text.as_slice()
    }
}
