// The turns of a node on the way up.
ghost use Rattle.std.specs.Prelude.{◌≡◌, ◌+◌, ◌*◌, ◌^◌, ◌<◌, ◌≤◌, [], ◌∷◌};
ghost use Rattle.selecting_automaton.specs.Turning.{leads, learned, rise};
ghost use Rattle.selecting_automaton.specs.Wanting.{eyes};
ghost use Rattle.selecting_automaton.specs.Words.{truth, first_known, known_of, up_of, seeks};
ghost use Rattle.selecting_automaton.specs.Judging.{noted, fits, climbing, climbed};
ghost use Rattle.selecting_automaton.specs.Depths.{FitWords};

use crate::judge::{Judge, is_odd};
use crate::sight::Sight;
use crate::states::Up;
use crate::turns::{Turn, Wanted};
use xpath_parser::Axis;

/// The parts that were sought, counted, and what is known of them.
#[derive(Clone, Copy)]
pub(crate) struct Climb {
    pub(crate) judge: Judge,
    pub(crate) place: usize,
    pub(crate) known: Up,
}

/// The word with one bit more at a place above its bits.
pub(crate) fn with_bit(word: u64, place: usize, set: bool) -> u64
    requires place { place < 64 }
    requires below { word < 2 ^ place }
    ensures { result ≡ word + truth set * 2 ^ place }
{
    if set { word + (1 << place) } else { word }
}

/// Whether an axis leads to nodes of this symbol.
fn leads(sight: &Sight, axis: Axis) -> bool
    ensures { result ≡ leads (eyes sight.now.kinds.now) axis sight.now.symbol }
{
    match axis {
        Axis::Attribute => sight.is_attribute(),
        Axis::Child
        | Axis::Descendant
        | Axis::DescendantOrSelf
        | Axis::SelfNode
        | Axis::FollowingSibling => !sight.is_attribute(),
    }
}

impl Climb {
    fn new(kids: Up, rest: Up) -> Climb
        ensures { result ≡ climbing kids rest }
    {
        Climb {
            judge: Judge::new(kids, rest),
            place: 0,
            known: Up { chain: 0, code: 0 },
        }
    }

    /// Notes what is known of the part that is sought.
    fn note(&mut self, sight: &Sight, axis: Axis, wanted: Wanted)
        requires room { self.old.place < 64 }
        requires chain { self.old.known.chain < 2 ^ self.old.place }
        requires code { self.old.known.code < 2 ^ self.old.place }
        ensures known { self.new.known ≡ noted self.old.known self.old.place (learned (eyes sight.now.kinds.now) axis sight.now.symbol (fits (eyes sight.now.kinds.now) sight.now.symbol wanted self.old.judge) (first_known self.old.judge.kids) (first_known self.old.judge.rest)) }
        ensures place { self.new.place ≡ self.old.place + 1 }
        ensures judge { self.new.judge ≡ self.old.judge }
    {
        let here = self.judge.fits(sight, wanted);
        let Judge { kids, rest, .. } = self.judge;
        let chain = leads(sight, axis) && here || is_odd(rest.chain);
        let code = !sight.is_attribute() && here || is_odd(kids.code) || is_odd(rest.code);
        self.known = Up {
            chain: with_bit(self.known.chain, self.place, chain),
            code: with_bit(self.known.code, self.place, code),
        };
        self.place += 1;
    }

    /// One turn.
    pub(crate) fn turn(&mut self, sight: &Sight, turn: &Turn)
        requires shallow { self.old.judge.stack < 2 ^ 127 }
        requires room { self.old.place + seeks (turn.now ∷ []) ≤ 64 }
        requires chain { self.old.known.chain < 2 ^ self.old.place }
        requires code { self.old.known.code < 2 ^ self.old.place }
        ensures { self.new ≡ climbed (eyes sight.now.kinds.now) sight.now.symbol self.old turn.now }
    {
        if let Turn::Seek(axis, wanted) = *turn {
            self.note(sight, axis, wanted);
        }
        self.judge.turn(sight, turn);
    }
}

/// What is known of a node that the turns, one after another, come to.
pub(crate) fn rise(turns: &[Turn], sight: &Sight, kids: Up, rest: Up) -> Up
    requires { FitWords turns.now }
    ensures { result ≡ up_of (rise (eyes sight.now.kinds.now) sight.now.symbol turns.now [] (known_of (seeks turns.now) kids) (known_of (seeks turns.now) rest)) }
{
    let mut climb = Climb::new(kids, rest);
    'turns: for turn in turns {
        climb.turn(sight, turn);
    }
    climb.known
}
