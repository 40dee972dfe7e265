// For each rule's number the patterns that call it below, each chained to the one before it, in four bytes a pattern.
ghost use Rattle.std.specs.Prelude.{◌≡◌, ◌≢◌, ◌+◌, ◌<◌, ◌≤◌, ◌^◌, ℕ, [], length, get_or, OnOk, IsOk};
ghost use Rattle.digram_index.specs.CallChains.{place_from};
ghost use Rattle.digram_index.specs.declared.patterns.Mark.TheVariants.{Call};

use crate::patterns::Mark;
use crate::room::fill;
use crate::thread::MOST;
use std::alloc::{AllocError, Global};
use std::marker::Model;

/// The chains of patterns by their places. Each link is the place behind the one that it leads to, and 0 where it leads nowhere.
#[derive(Drop)]
pub struct CallChains {
    // for each number of a rule the latest pattern that calls it
    latest: Vec<u32>,
    // for each pattern the one before it
    earlier: Vec<u32>,
}

impl Model for CallChains {
    ghost use Rattle.std.specs.Prelude.{length, ◌≤◌, ◌^◌};
    ghost use Rattle.digram_index.specs.CallChains.{Chains};

    ghost Value = { Chains };

    ghost view = { λ c. record { latest = c.latest.items; earlier = c.earlier.items } };

    ghost invariant = { λ c. length c.earlier.items ≤ 2 ^ 31 };
}

impl CallChains {
    /// No numbers and no patterns. It takes no memory.
    pub fn new(alloc: Global) -> CallChains
        ensures latest { result.latest ≡ [] }
        ensures earlier { result.earlier ≡ [] }
    {
        CallChains {
            latest: Vec::new(alloc),
            earlier: Vec::new(alloc),
        }
    }

    /// Below which number rules may be called.
    pub fn callees(&self) -> usize
        ensures { result ≡ length self.now.latest }
    {
        self.latest.len()
    }

    /// For how many patterns there is room.
    pub fn room(&self) -> usize
        ensures value { result ≡ length self.now.earlier }
        ensures few { result ≤ 2 ^ 31 }
    {
        self.earlier.len()
    }

    /// Makes room for numbers below the limit.
    pub fn extend_callees(&mut self, limit: usize) -> Result<(), AllocError>
        ensures latest { (n : ℕ) → get_or self.new.latest n 0 ≡ get_or self.old.latest n 0 }
        ensures earlier { self.new.earlier ≡ self.old.earlier }
        ensures more { length self.old.latest ≤ length self.new.latest }
        ensures room { OnOk result (limit ≤ length self.new.latest) }
        ensures succeeds { limit ≤ length self.old.latest → IsOk result }
    {
        fill(&mut self.latest, limit)
    }

    /// Makes room for patterns at places below the limit.
    pub fn extend(&mut self, limit: usize) -> Result<(), AllocError>
        ensures latest { self.new.latest ≡ self.old.latest }
        ensures earlier { (e : ℕ) → get_or self.new.earlier e 0 ≡ get_or self.old.earlier e 0 }
        ensures more { length self.old.earlier ≤ length self.new.earlier }
        ensures room { OnOk result (limit ≤ length self.new.earlier) }
        ensures few { length self.new.earlier ≤ 2 ^ 31 }
        ensures succeeds { limit ≤ length self.old.earlier → IsOk result }
    {
        if limit <= self.earlier.len() {
            return Ok(());
        }
        if limit > MOST {
            return Err(AllocError);
        }
        fill(&mut self.earlier, limit)
    }

    /// Chains the pattern at a place, if its lower mark is a call.
    pub fn push(&mut self, place: usize, lower: Mark)
        requires there { place < length self.old.earlier }
        requires callee { (n : ℕ) → lower ≡ Call n → n < length self.old.latest }
        ensures latest { (n : ℕ) → lower ≡ Call n → get_or self.new.latest n 0 ≡ place + 1 }
        ensures chained { (n : ℕ) → lower ≡ Call n → get_or self.new.earlier place 0 ≡ get_or self.old.latest n 0 }
        ensures others { (n : ℕ) → lower ≢ Call n → get_or self.new.latest n 0 ≡ get_or self.old.latest n 0 }
        ensures kept { (e : ℕ) → e ≢ place → get_or self.new.earlier e 0 ≡ get_or self.old.earlier e 0 }
        ensures room { (length self.new.latest ≡ length self.old.latest) × (length self.new.earlier ≡ length self.old.earlier) }
    {
        if let Mark::Call(number) = lower {
            self.earlier[place] = self.latest[number];
            self.latest[number] = place as u32 + 1;
        }
    }

    /// The place of the latest pattern that calls the rule with a number.
    pub fn latest(&self, number: usize) -> Option<usize>
        ensures { result ≡ place_from (get_or self.now.latest number 0) }
    {
        place_at(self.latest.as_slice(), number)
    }

    /// The place of the pattern before the one at a place.
    pub fn earlier(&self, place: usize) -> Option<usize>
        ensures { result ≡ place_from (get_or self.now.earlier place 0) }
    {
        place_at(self.earlier.as_slice(), place)
    }
}

// Where a link leads.
fn place_at(links: &[u32], at: usize) -> Option<usize>
    ensures { result ≡ place_from (get_or links.now at 0) }
{
    match links.get(at) {
        Some(&link) => (link as usize).checked_sub(1),
        None => None,
    }
}
