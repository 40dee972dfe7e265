// Which calls of an object in memory fail, and the counts of calls and faults.
ghost use Rattle.std.specs.Prelude.{◌≡◌, ◌≤◌, ◌↔◌, IsTrue};
ghost use Rattle.tree_outside.specs.Outside.{Rose};
ghost use Rattle.tree_outside.specs.Calls.{Calls, IsDue, begun, counted, failed};

use crate::Failed;
use std::marker::Model;

/// One more, until the count stands at its last value.
pub fn one_more(count: u64) -> u64
    ensures exact { result ≡ counted count }
    ensures later { count ≤ result }
{
    count.saturating_add(1)
}

#[derive(Drop)]
pub struct Schedule {
    fails: Vec<u64>,
    made: u64,
    faults: u64,
}

impl Model for Schedule {
    ghost use Rattle.tree_outside.specs.Calls.{Calls};

    ghost Value = { Calls };

    ghost view = { λ s. record { fails = s.fails.items; made = s.made; faults = s.faults } };
}

impl Schedule {
    pub fn new(fails: Vec<u64>) -> Schedule
        ensures { result ≡ record { fails = fails.items; made = 0; faults = 0 } }
    {
        Schedule {
            fails,
            made: 0,
            faults: 0,
        }
    }

    /// Counts a call, and answers whether it is one of those that fail.
    pub fn begin(&mut self) -> bool
        ensures due { IsTrue result ↔ IsDue self.old }
        ensures counted { self.new ≡ begun self.old }
    {
        let number = self.made;
        self.made = one_more(number);
        self.fails.contains(&number)
    }

    /// How many calls were counted.
    pub fn made(&self) -> u64
        ensures { result ≡ self.now.made }
    {
        self.made
    }

    /// How many faults were counted.
    pub fn faults(&self) -> u64
        ensures { result ≡ self.now.faults }
    {
        self.faults
    }

    /// Counts a fault.
    pub fn fail(&mut self) -> Failed
        ensures counted { self.new ≡ failed self.old }
        ensures later { self.old.faults ≤ self.new.faults }
    {
        self.faults = one_more(self.faults);
        Failed
    }
}
