// The turns of a node on the way down.
ghost use Rattle.std.specs.Prelude.{◌≡◌, ◌+◌, ◌*◌, ◌^◌, ◌<◌, ◌≤◌, [], ◌∷◌, false};
ghost use Rattle.selecting_automaton.specs.Turning.{arrives, fall};
ghost use Rattle.selecting_automaton.specs.Wanting.{eyes};
ghost use Rattle.selecting_automaton.specs.Words.{first_marks, later_marks, known_of, marks_of, fallen, seeks, walks};
ghost use Rattle.selecting_automaton.specs.Judging.{marked, entered, descended};
ghost use Rattle.selecting_automaton.specs.Bounds.{AreMarksBelow};
ghost use Rattle.selecting_automaton.specs.Depths.{FitWords};
ghost use Rattle.selecting_automaton.specs.declared.turns.Turn.TheVariants as turns;

use crate::climb::with_bit;
use crate::judge::{Judge, is_odd};
use crate::sight::Sight;
use crate::states::{Down, Up};
use crate::turns::{Turn, Wanted};
use slt_grammar::Fell;
use xpath_parser::Axis;

/// Where paths come from, the step that is next in the lowest bits; whether the path has come to this node, whether some path ended here;
/// how many steps were done, and where they may begin at the kids and at the later siblings.
#[derive(Clone, Copy)]
pub(crate) struct Descent {
    pub(crate) judge: Judge,
    pub(crate) marks: Down,
    pub(crate) here: bool,
    pub(crate) hit: bool,
    pub(crate) place: usize,
    pub(crate) left: Down,
    pub(crate) right: Down,
}

impl Down {
    /// Goes on to what is said of the later steps.
    fn pass(&mut self)
        ensures { self.new ≡ later_marks self.old }
    {
        self.parent /= 2;
        self.above /= 2;
        self.before /= 2;
    }

    /// Where one step more may begin.
    fn mark(&mut self, place: usize, parent: bool, above: bool, before: bool)
        requires place { place < 64 }
        requires parent { self.old.parent < 2 ^ place }
        requires above { self.old.above < 2 ^ place }
        requires before { self.old.before < 2 ^ place }
        ensures { self.new ≡ marked self.old place (record { parent = parent; above = above; before = before }) }
    {
        self.parent = with_bit(self.parent, place, parent);
        self.above = with_bit(self.above, place, above);
        self.before = with_bit(self.before, place, before);
    }
}

impl Descent {
    pub(crate) fn new(judge: Judge, marks: Down) -> Descent
        ensures { result ≡ entered judge marks }
    {
        let none = Down {
            start: false,
            parent: 0,
            above: 0,
            before: 0,
        };
        Descent {
            judge,
            marks,
            here: false,
            hit: false,
            place: 0,
            left: none,
            right: none,
        }
    }

    /// Whether a step ends here, its test and its filters aside.
    fn arrives(&self, sight: &Sight, axis: Axis) -> bool
        ensures { result ≡ arrives (eyes sight.now.kinds.now) axis sight.now.symbol self.now.here (first_marks self.now.marks) }
    {
        let attribute = sight.is_attribute();
        match axis {
            Axis::Child => is_odd(self.marks.parent) && !attribute,
            Axis::Attribute => is_odd(self.marks.parent) && attribute,
            Axis::SelfNode => self.here,
            Axis::Descendant => is_odd(self.marks.above) && !attribute,
            Axis::DescendantOrSelf => self.here || is_odd(self.marks.above) && !attribute,
            Axis::FollowingSibling => is_odd(self.marks.before) && !attribute,
        }
    }

    /// A step, where the path has come to this node or not.
    fn walk(&mut self, sight: &Sight, axis: Axis, wanted: Wanted)
        requires place { self.old.place < 64 }
        requires left { AreMarksBelow self.old.place self.old.left }
        requires right { AreMarksBelow self.old.place self.old.right }
        ensures { self.new ≡ descended (eyes sight.now.kinds.now) sight.now.symbol self.old (turns.Walk axis wanted) }
    {
        let here = self.here;
        let parent = is_odd(self.marks.parent);
        let above = is_odd(self.marks.above);
        let before = here && !sight.is_attribute() || is_odd(self.marks.before);
        self.left.mark(self.place, here, here || above, false);
        self.right.mark(self.place, parent, above, before);
        self.here = self.arrives(sight, axis) && (sight.is(wanted) && self.judge.top());
        self.marks.pass();
        self.place += 1;
        self.judge.pop();
    }

    /// One turn.
    pub(crate) fn turn(&mut self, sight: &Sight, turn: &Turn)
        requires shallow { self.old.judge.stack < 2 ^ 127 }
        requires room { self.old.place + walks (turn.now ∷ []) ≤ 64 }
        requires left { AreMarksBelow self.old.place self.old.left }
        requires right { AreMarksBelow self.old.place self.old.right }
        ensures { self.new ≡ descended (eyes sight.now.kinds.now) sight.now.symbol self.old turn.now }
    {
        match *turn {
            Turn::Begin => self.here = self.marks.start,
            Turn::Walk(axis, wanted) => self.walk(sight, axis, wanted),
            Turn::End => {
                self.hit = self.hit || self.here;
                self.here = false;
            }
            Turn::Truth(_) | Turn::Not | Turn::Or | Turn::And | Turn::Seek(_, _) => {
                self.judge.turn(sight, turn);
            }
        }
    }
}

/// Whether the turns, one after another, hit a node, and where they come to at its kids and at its later siblings.
pub(crate) fn fall(turns: &[Turn], sight: &Sight, down: Down, kids: Up, rest: Up) -> Fell<Down>
    requires { FitWords turns.now }
    ensures { result ≡ fallen (fall (eyes sight.now.kinds.now) sight.now.symbol turns.now [] (known_of (seeks turns.now) kids) (known_of (seeks turns.now) rest) down.start false (marks_of (walks turns.now) down)) }
{
    let mut descent = Descent::new(Judge::new(kids, rest), down);
    'turns: for turn in turns {
        descent.turn(sight, turn);
    }
    Fell {
        hit: descent.hit,
        left: descent.left,
        right: descent.right,
    }
}
