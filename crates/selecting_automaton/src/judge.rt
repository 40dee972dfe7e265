// The filters of a query, judged at a node.
ghost use Rattle.std.specs.Prelude.{◌≡◌, ◌+◌, ◌*◌, ◌^◌, ◌<◌, ◌/◌};
ghost use Rattle.selecting_automaton.specs.Turning.{sought};
ghost use Rattle.selecting_automaton.specs.Wanting.{eyes};
ghost use Rattle.selecting_automaton.specs.Words.{lowest, truth, first_known, later_known};
ghost use Rattle.selecting_automaton.specs.declared.turns.Turn.TheVariants as turns;
ghost use Rattle.selecting_automaton.specs.Judging.{judged, popped, pushed, fits};

use crate::sight::Sight;
use crate::states::Up;
use crate::turns::{Turn, Wanted};
use xpath_parser::Axis;

/// The truths that wait on the stack, the topmost in the lowest bit, and what is known of the node's kids and of its later siblings, the
/// part that is sought next in the lowest bit.
#[derive(Clone, Copy)]
pub(crate) struct Judge {
    pub(crate) stack: u128,
    pub(crate) kids: Up,
    pub(crate) rest: Up,
}

/// The lowest bit of a word.
pub(crate) fn is_odd(word: u64) -> bool
    ensures { result ≡ lowest word }
{
    word % 2 == 1
}

impl Up {
    /// Goes on to what is known of the later parts.
    fn pass(&mut self)
        ensures { self.new ≡ later_known self.old }
    {
        self.chain /= 2;
        self.code /= 2;
    }
}

impl Judge {
    pub(crate) fn new(kids: Up, rest: Up) -> Judge
        ensures { result ≡ record { stack = 0; kids = kids; rest = rest } }
    {
        Judge {
            stack: 0,
            kids,
            rest,
        }
    }

    pub(crate) fn top(&self) -> bool
        ensures { result ≡ lowest self.now.stack }
    {
        self.stack % 2 == 1
    }

    /// Takes the topmost truth.
    pub(crate) fn pop(&mut self) -> bool
        ensures top { result ≡ lowest self.old.stack }
        ensures rest { self.new ≡ popped self.old }
    {
        let top = self.top();
        self.stack = self.stack / 2;
        top
    }

    fn push(&mut self, truth: bool)
        requires { self.old.stack < 2 ^ 127 }
        ensures { self.new ≡ pushed truth self.old }
    {
        self.stack = u128::from(truth) + 2 * self.stack;
    }

    /// Whether the part fits this node.
    pub(crate) fn fits(&self, sight: &Sight, wanted: Wanted) -> bool
        ensures { result ≡ fits (eyes sight.now.kinds.now) sight.now.symbol wanted self.now }
    {
        sight.is(wanted) && self.top() && self.stack / 2 % 2 == 1
    }

    /// Whether the part that is sought finds something, where `here` says whether it fits this node.
    fn finds(&self, sight: &Sight, axis: Axis, here: bool) -> bool
        ensures { result ≡ sought (eyes sight.now.kinds.now) axis sight.now.symbol here (first_known self.now.kids) (first_known self.now.rest) }
    {
        match axis {
            Axis::Child | Axis::Attribute => is_odd(self.kids.chain),
            Axis::SelfNode => here,
            Axis::Descendant => is_odd(self.kids.code),
            Axis::DescendantOrSelf => here || is_odd(self.kids.code),
            Axis::FollowingSibling => !sight.is_attribute() && is_odd(self.rest.chain),
        }
    }

    fn seek(&mut self, sight: &Sight, axis: Axis, wanted: Wanted)
        ensures { self.new ≡ judged (eyes sight.now.kinds.now) sight.now.symbol self.old (turns.Seek axis wanted) }
    {
        let here = self.fits(sight, wanted);
        let found = self.finds(sight, axis, here);
        self.stack = u128::from(found) + 2 * (self.stack / 2 / 2);
        self.kids.pass();
        self.rest.pass();
    }

    /// One turn.
    pub(crate) fn turn(&mut self, sight: &Sight, turn: &Turn)
        requires { self.old.stack < 2 ^ 127 }
        ensures { self.new ≡ judged (eyes sight.now.kinds.now) sight.now.symbol self.old turn.now }
    {
        match *turn {
            Turn::Truth(truth) => self.push(truth),
            Turn::Not => {
                let truth = self.pop();
                self.push(!truth);
            }
            Turn::Or => {
                let second = self.pop();
                let first = self.pop();
                self.push(first || second);
            }
            Turn::And => {
                let second = self.pop();
                let first = self.pop();
                self.push(first && second);
            }
            Turn::Seek(axis, wanted) => self.seek(sight, axis, wanted),
            Turn::Begin | Turn::End => {}
            Turn::Walk(_axis, _wanted) => {
                self.pop();
            }
        }
    }
}
