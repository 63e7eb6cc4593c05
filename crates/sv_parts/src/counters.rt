// What the plans of a turn share.
ghost use Rattle.std.specs.Prelude.{◌≡◌, ◌-◌, ◌+◌, nat_le, if◌then◌else◌, IfOk, OnOk, OnErr};
ghost use Rattle.sv_parts.specs.Counters.{unspent};

use sv_base::NoMemory;

/// How many units of work a turn may take: instances created, instances updated, and rows of evaluated lists.
pub const WORK_LIMIT: u32 = 100_000;

/// What patches take: units of work, of which so many are left in a turn, and numbers, of which this is the next. Lists and slot props take
/// numbers, and all else of a page that is to be told apart from what stood at its place before.
#[derive(Clone, Copy, PartialEq, Eq, Debug)]
pub struct Counters {
    pub work: u32,
    pub next: u64,
}

impl Counters {
    /// Nothing was taken. Numbers go from 1.
    pub fn new() -> Counters
        ensures { result ≡ unspent }
    {
        Counters {
            work: WORK_LIMIT,
            next: 1,
        }
    }

    /// The next turn begins: all work is there again, and numbers go on.
    pub fn begin(&mut self)
        ensures { self.new ≡ record self.old { work = WORK_LIMIT } }
    {
        self.work = WORK_LIMIT;
    }

    /// Takes so many units of work; `false`, with none taken, exactly where not so many are left.
    pub fn spend_work(&mut self, units: usize) -> bool
        ensures left { result ≡ nat_le units self.old.work }
        ensures taken { self.new ≡ record self.old { work = if result then self.old.work - units else self.old.work } }
    {
        if units <= self.work as usize {
            self.work -= units as u32;
            true
        } else {
            false
        }
    }

    /// The next number, which nothing else ever gets.
    pub fn take_number(&mut self) -> Result<u64, NoMemory>
        ensures number { IfOk result (λ number. number ≡ self.old.next) }
        ensures ok { OnOk result (self.new ≡ record self.old { next = self.old.next + 1 }) }
        ensures err { OnErr result (self.new ≡ self.old) }
    {
        let number = self.next;
        let Some(next) = number.checked_add(1) else {
            return Err(NoMemory);
        };
        self.next = next;
        Ok(number)
    }
}
