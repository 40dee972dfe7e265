// Marks of the start, from which a search may begin.
ghost use Rattle.std.specs.Prelude.{◌≡◌, ℕ, ◌<◌, ◌≤◌, ◌-◌, ◌+◌, List, All, Some, IfSome, length, option_to_list, take};
ghost use Rattle.std.specs.Fn.{CalledAt};
ghost use Rattle.std.specs.List.Retain.{IsFiltered};
ghost use Rattle.plain_tree.specs.declared.kind.Kind.{Kind};
ghost use Rattle.slt_grammar.specs.Keyed.{IsKeyed, Keyed, KeyedRule};
ghost use Rattle.segment_counts.specs.Counting.{weight_by};
ghost use Rattle.preorder_address.specs.Numberings.{measure_of};
ghost use Rattle.preorder_address.specs.Marks.{AreMarks, HasPassed, IsMark, IsSameBefore, MarksPlace};
ghost use Rattle.preorder_address.specs.Shifted.{IsLeft};
ghost use Rattle.preorder_address.specs.declared.marks.Mark.{Mark};

use crate::numbering::Numbering;
use crate::shifting::{Shift, shift_all};
use crate::site::begins_at;
use segment_counts::Weights;
use slt_grammar::{Key, TourWalk};
use std::alloc::Global;
use std::marker::Model;

// How many stops lie between two marks at least.
const STOPS_APART: usize = 128;

/// A node of a grammar's start, with the weights of what the start's tour passes before it.
#[derive(Clone, Copy, Drop)]
pub struct Mark {
    pub(crate) key: Key,
    pub(crate) passed: Weights,
}

impl Mark {
    /// The key of the node.
    pub fn key(&self) -> Key
        ensures { result ≡ self.now.key }
    {
        self.key
    }

    // A walk that stands at the node.
    pub(crate) fn walk(&self) -> TourWalk
        ensures { result ≡ record { key = self.now.key; part = 0; last = self.now.key } }
    {
        TourWalk {
            key: self.key,
            part: 0,
            last: self.key,
        }
    }
}

/// Marks of a grammar's start, from which a search may begin. They are a hint: where there are none, a search begins at the root.
#[derive(Drop)]
pub struct Marks {
    list: Vec<Mark>,
}

impl Model for Marks {
    ghost Value = { List Mark };

    ghost view = { λ marks. marks.list.items };
}

impl Marks {
    /// No marks.
    pub fn new(alloc: Global) -> Marks
        ensures { (names : List (Kind × List ℕ)) (G : List KeyedRule) → AreMarks names G result }
    {
        Marks {
            list: Vec::new(alloc),
        }
    }

    /// Takes all marks away.
    pub fn clear(&mut self)
        ensures { (names : List (Kind × List ℕ)) (G : List KeyedRule) → AreMarks names G self.new }
    {
        self.list.clear();
    }

    /// The marks, in the order in which their nodes stood when they were marked.
    pub fn as_slice(&self) -> &[Mark]
        ensures { result.now ≡ self.now }
    {
        self.list.as_slice()
    }

    /// Keeps the marks for which a test holds, in their order.
    pub fn retain<F: FnMut(&Mark) -> bool>(&mut self, keep: F)
        requires { F.IsAlwaysCallable keep }
        ensures { IsFiltered (CalledAt F.FnMut) keep self.old self.new }
    {
        self.list.retain(keep);
    }

    /// Takes away the marks that don't stand before this one, and all where there is none. Those that stay are marks of each grammar whose
    /// start is the same before it.
    pub fn cut(&mut self, first: Option<Mark>)
        ensures { (names : List (Kind × List ℕ)) (g : Keyed) (H : List KeyedRule) (place : ℕ) → IsKeyed g → AreMarks names g.rules self.old
            → MarksPlace names g.rules place first → IsSameBefore place g.rules H → AreMarks names H self.new }
    {
        let Some(mark) = first else {
            self.list.clear();
            return;
        };
        let kept = count_below(self.list.as_slice(), mark.passed.all);
        self.list.truncate(kept);
    }

    /// Keeps the marks that stand before a change, moves those that stand behind it, and takes away those of its node and the one whose
    /// key is gone. It takes no memory.
    pub fn shift(&mut self, shift: &Shift, gone: Option<Key>)
        ensures { All (IsLeft shift.now (option_to_list gone) self.old) self.new }
    {
        let kept = shift_all(self.list.as_mut_slice(), shift, &gone);
        self.list.truncate(kept);
    }

    // The last mark before which there are no more nodes than this number, or with the bottoms no more.
    pub(crate) fn last_up_to(&self, by: Numbering, number: u64) -> Option<Mark>
        ensures mark { (names : List (Kind × List ℕ)) (G : List KeyedRule) → AreMarks names G self.now → IfSome result (IsMark names G) }
        ensures under { IfSome result (λ mark. weight_by (measure_of by) mark.passed ≤ number) }
    {
        let marks = self.list.as_slice();
        let mut left = marks.len();
        while left > 0 {
            left -= 1;
            if by.of(marks[left].passed) <= number {
                return Some(marks[left]);
            }
        }
        None
    }

    // Marks the node at which a walk along the start stands, where that lies behind the last mark, so many stops were passed since, and there
    // is memory. It answers how many stops were passed now.
    pub(crate) fn note(&mut self, walk: &TourWalk, passed: Weights, since: usize) -> usize
        ensures { (names : List (Kind × List ℕ)) (g : Keyed) → IsKeyed g → AreMarks names g.rules self.old
            → HasPassed names g.rules (length g.rules - 1) walk.now passed → AreMarks names g.rules self.new }
    {
        if since < STOPS_APART {
            return since + 1;
        }
        let Some(mark) = mark_at(walk, passed) else {
            return since;
        };
        if !self.stands_before(&mark) {
            return 0;
        }
        let _ = self.list.push(mark);
        0
    }

    // Whether all marks seem to stand before this one.
    fn stands_before(&self, mark: &Mark) -> bool {
        match self.list.as_slice().last() {
            Some(last) => last.passed.all < mark.passed.all,
            None => true,
        }
    }
}

// The mark of the node at which a walk stands, where it has just met it.
pub(crate) fn mark_at(walk: &TourWalk, passed: Weights) -> Option<Mark>
    ensures mark { (names : List (Kind × List ℕ)) (g : Keyed) → IsKeyed g → HasPassed names g.rules (length g.rules - 1) walk.now passed
        → IfSome result (IsMark names g.rules) }
    ensures key { IfSome result (λ mark. mark.key ≡ walk.now.key) }
{
    if !begins_at(walk, walk.last) {
        return None;
    }
    Some(Mark {
        key: walk.key,
        passed,
    })
}

// How many marks there are before the first one that doesn't have less before it.
fn count_below(marks: &[Mark], all: u64) -> usize
    ensures { All (λ mark. mark.passed.all < all) (take result marks.now) }
{
    let mut count = 0;
    while count < marks.len() {
        if marks[count].passed.all >= all {
            return count;
        }
        count += 1;
    }
    count
}
