// The answers of a run downward, one after another.
ghost use Rattle.std.specs.Prelude.{◌≡◌, ◌<◌, ◌++◌, [], Some, None, IfOk, IfSome, OnErr, IsSome, drop, option_to_list};
ghost use Rattle.rule_runs.specs.Alike.{symbols, first_symbols};
ghost use Rattle.rule_runs.specs.Hits.{numbers};

use crate::alike::{AlikeHits, alike_lists, next_alike};
use crate::falling::FallTable;
use crate::listing::{Hit, Level, Part, next_hit};
use std::alloc::{AllocError, Global};
use std::marker::Model;

/// The nodes that are hit, by rising numbers, one after another. It is seen as those that are still to come.
#[derive(Drop)]
pub struct Answers<'a> {
    lists: &'a [Vec<Part>],
    levels: Vec<Level>,
    // What hits the lists have, where these are alike. It is empty as long as none are told many at a time.
    alike: Vec<Option<AlikeHits>>,
}

impl<'a> Model for Answers<'a> {
    ghost use Rattle.std.specs.Prelude.{List, reverse};
    ghost use Rattle.rule_runs.specs.declared.listing.Hit.{Hit};
    ghost use Rattle.rule_runs.specs.Alike.{AreAlike};
    ghost use Rattle.rule_runs.specs.Listing.{coming, list_hits, IsComing};

    ghost Value = { List Hit };

    ghost view = { λ a. coming a.lists.now (reverse a.levels.items) };

    ghost invariant = { λ a. IsComing a.lists.now (reverse a.levels.items) × AreAlike (list_hits a.lists.now) a.alike.items };
}

impl<'a> Answers<'a> {
    /// All answers of a table that lists them. It fails where memory is refused.
    pub fn new(alloc: Global, fallen: &'a FallTable) -> Result<Answers<'a>, AllocError>
        requires { IsSome fallen.now.hits }
        ensures { IfOk result (λ answers. fallen.now.hits ≡ Some answers) }
    {
        let mut levels = Vec::new(alloc);
        let alike = Vec::new(alloc);
        if let Some(list) = fallen.whole.list {
            levels.push(Level {
                list: list as usize,
                next: 0,
                from: 0,
            })?;
        }
        Ok(Answers {
            lists: fallen.lists.as_slice(),
            levels,
            alike,
        })
    }

    /// The next hit, and none behind the last one. It fails where memory is refused, and then the same hits are still to come.
    pub fn next_hit(&mut self) -> Result<Option<Hit>, AllocError>
        ensures next { IfOk result (λ hit. self.old ≡ option_to_list hit ++ self.new) }
        ensures end { IfOk result (λ hit. hit ≡ None → self.old ≡ []) }
        ensures refused { OnErr result (self.new ≡ self.old) }
    {
        next_hit(self.lists, &mut self.levels)
    }

    /// The number of the next hit, and none behind the last one. It fails where memory is refused, and then the same hits are still
    /// to come.
    pub fn next(&mut self) -> Result<Option<u64>, AllocError>
        ensures next { IfOk result (λ number. numbers self.old ≡ option_to_list number ++ numbers self.new) }
        ensures rest { IfOk result (λ number. self.new ≡ drop 1 self.old) }
        ensures end { IfOk result (λ number. number ≡ None → self.old ≡ []) }
        ensures refused { OnErr result (self.new ≡ self.old) }
    {
        match self.next_hit()? {
            Some(hit) => Ok(Some(hit.number)),
            None => Ok(None),
        }
    }

    /// The next hits that have one symbol, as many as are seen at once to have it, and none behind the last one: those of nodes and of whole
    /// rules that stand one behind another in one rule. The others are still to come. The first call goes through the lists of the table. It
    /// fails where memory is refused, and then the same hits are still to come.
    pub fn next_alike(&mut self) -> Result<Option<AlikeHits>, AllocError>
        ensures next { IfOk result (λ hits. symbols self.old ≡ first_symbols hits ++ symbols self.new) }
        ensures rest { IfOk result (λ next. IfSome next (λ hits. self.new ≡ drop hits.count self.old)) }
        ensures some { IfOk result (λ next. IfSome next (λ hits. 0 < hits.count)) }
        ensures end { IfOk result (λ hits. hits ≡ None → self.old ≡ []) }
        ensures refused { OnErr result (self.new ≡ self.old) }
    {
        if self.alike.len() < self.lists.len() {
            self.alike = alike_lists(*self.levels.allocator(), self.lists)?;
        }
        next_alike(self.lists, self.alike.as_slice(), &mut self.levels)
    }
}
