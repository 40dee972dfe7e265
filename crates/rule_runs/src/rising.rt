// Runs upward: each rule is evaluated once for each list of argument states that it is met with.
ghost use Rattle.std.specs.Prelude.{◌≡◌, ◌≢◌, ◌+◌, ◌-◌, ◌*◌, ◌<◌, ◌≤◌, ◌++◌, ◌∷◌, List, [], length, get_or, drop, reverse, IfOk, IsTrue, OnOk, All};
ghost use Rattle.slt_grammar.specs.Algebras.{Algebra};
ghost use Rattle.slt_grammar.specs.Grammars.{body_at, value};
ghost use Rattle.slt_grammar.specs.Keyed.{rules_of};
ghost use Rattle.slt_grammar.specs.Terms.{up};
ghost use Rattle.slt_grammar.specs.declared.rules.Rule.{Rule};
ghost use Rattle.rule_runs.specs.Reached.{RuleStates, ReadsOnce};
ghost use Rattle.rule_runs.specs.Entries.{key_of};
ghost use Rattle.rule_runs.specs.Frames.{AreFrames, AreStacked, Stands, own, ahead};
ghost use Rattle.rule_runs.specs.Risen.{IsPair, IsRun, keys, pair_at};
ghost use Rattle.rule_runs.specs.declared.notes.Note.{Note};
ghost use Rattle.rule_runs.specs.Notes.{AreKept, AreNoted, IsRisen};

use crate::frame::{Frame, Next, advance, begin, put_note};
use crate::kept::{Bodies, Reading};
use crate::layers::Layers;
use crate::memo::{Memo, Pair};
use crate::notes::Note;
use crate::place::short;
use read_steps::Steps;
use slt_grammar::{Grammar, Label, Rising, RunState};
use std::alloc::{AllocError, Global};
use std::marker::Model;
use std::mem::replace;
use std::sync::ledger::Ledger;

/// What a run upward has found. It is seen as the states of the pairs that it met, a rule with the states of its arguments, and the
/// state of the whole. All runs downward over the same states share it.
pub struct RiseTable<S: RunState> {
    pub(crate) known: Memo<S>,
    pub(crate) top: S,
    // The notes of the pairs' bodies: of each, or of none.
    pub(crate) bodies: Bodies<S>,
}

impl<S: RunState> Drop for RiseTable<S> {
    fn drop(self) {
        let RiseTable {
            known: _known,
            top: _top,
            bodies: _bodies,
        } = self;
    }
}

impl<S: RunState> Model for RiseTable<S> {
    ghost use Rattle.rule_runs.specs.Risen.{Risen};

    ghost Value = { Risen S };

    ghost view = { λ t. record { known = t.known; top = t.top; kept = t.bodies } };
}

impl<S: RunState> RiseTable<S> {
    /// The state of the whole.
    pub fn top(&self) -> &S
        ensures { result.now ≡ self.now.top }
    {
        &self.top
    }

    /// How many pairs were met.
    pub fn pairs(&self) -> usize
        ensures { result ≡ length (keys self.now.known) }
    {
        self.known.len()
    }

    /// The rule of the pair at a place.
    pub fn rule_at(&self, place: usize) -> usize
        requires { place < length (keys self.now.known) }
        ensures { result ≡ (pair_at (keys self.now.known) place).0 }
    {
        match self.known.pair(place) {
            Some((rule, _)) => rule,
            None => unreachable!(),
        }
    }

    /// The bodies of the pairs, to be read: those that are noted are there.
    pub fn reading(&self, alloc: Global) -> Result<Reading<'_, S>, AllocError>
        requires { length self.now.kept ≤ length (keys self.now.known) }
        ensures { (B : Algebra S) (G : List Rule) → AreNoted B G (keys self.now.known) self.now.kept → IfOk result (λ reading. AreKept B G (keys self.now.known) reading) }
    {
        Reading::new(alloc, &self.bodies, self.known.len())
    }
}

/// Runs the automaton upward over the rules: its state at the root of what the grammar stands for, and what a run downward needs.
///
/// Each pair of a rule and states of its arguments that the run meets is read once, with at most two steps a node, whatever is
/// answered. Where `noted` is asked for, the bodies are noted as they are read, so that a run downward reads none of them again: that
/// takes some words for each node, in vain where nothing runs downward. It fails where memory is refused, as it is for lists of more than
/// 2^32 pairs, states or notes.
pub fn rise<A: Rising, L: Ledger>(
    alloc: Global,
    grammar: &Grammar,
    automaton: &A,
    noted: bool,
    steps: &mut Steps<L>,
) -> Result<RiseTable<A::State>, AllocError>
    ensures top { IfOk result (λ table. table.top ≡ up (A.algebra automaton.now) (value (rules_of grammar.now.rules)) []) }
    ensures run { IfOk result (λ table. IsRisen (A.algebra automaton.now) (rules_of grammar.now.rules) table) }
    ensures steps { (pairs : List (RuleStates A.State)) × ReadsOnce (A.algebra automaton.now) (rules_of grammar.now.rules) pairs (steps.new - steps.old) }
    ensures counted { steps.old ≤ steps.new }
{
    let mut known = Memo::with_room(alloc, grammar.rules())?;
    let mut bodies = Bodies::new(alloc);
    let top = run_up(
        alloc,
        grammar,
        automaton,
        noted,
        &mut known,
        &mut bodies,
        steps,
    )?;
    Ok(RiseTable { known, top, bodies })
}

// Runs upward from the start, noting the states of the pairs and keeping their bodies. It answers the state of the whole.
fn run_up<A: Rising, L: Ledger>(
    alloc: Global,
    grammar: &Grammar,
    automaton: &A,
    noted: bool,
    known: &mut Memo<A::State>,
    bodies: &mut Bodies<A::State>,
    steps: &mut Steps<L>,
) -> Result<A::State, AllocError>
    requires known { known.old ≡ [] }
    requires bodies { bodies.old ≡ [] }
    ensures top { IfOk result (λ top. top ≡ up (A.algebra automaton.now) (value (rules_of grammar.now.rules)) []) }
    ensures run { OnOk result (IsRun (A.algebra automaton.now) (rules_of grammar.now.rules) known.new) }
    ensures noted { OnOk result (AreNoted (A.algebra automaton.now) (rules_of grammar.now.rules) (keys known.new) bodies.new) }
    ensures steps { (pairs : List (RuleStates A.State)) × ReadsOnce (A.algebra automaton.now) (rules_of grammar.now.rules) pairs (steps.new - steps.old) }
    ensures counted { steps.old ≤ steps.new }
{
    let mut frames = Vec::new(alloc);
    let mut labels = Vec::new(alloc);
    let mut stack = Vec::new(alloc);
    let mut notes = Layers::new(alloc);
    let start = Pair {
        rule: grammar.rules() - 1,
        states: Vec::new(alloc),
    };
    let mut frame = begin(grammar, start, &mut labels, steps)?;
    run_on(
        alloc,
        grammar,
        automaton,
        noted,
        known,
        bodies,
        &mut frames,
        &mut frame,
        &mut labels,
        &mut stack,
        &mut notes,
        steps,
    )
}

// Runs on from the start's body, which is read and not yet evaluated, to the state of the whole. Of the clauses on steps, `steps` counts
// in what reading that body may have taken, two steps for each of its nodes.
fn run_on<A: Rising, L: Ledger>(
    alloc: Global,
    grammar: &Grammar,
    automaton: &A,
    noted: bool,
    known: &mut Memo<A::State>,
    bodies: &mut Bodies<A::State>,
    frames: &mut Vec<Frame<A::State>>,
    frame: &mut Frame<A::State>,
    labels: &mut Vec<Label>,
    stack: &mut Vec<A::State>,
    notes: &mut Layers<Note<A::State>>,
    steps: &mut Steps<L>,
) -> Result<A::State, AllocError>
    requires known { known.old ≡ [] }
    requires bodies { bodies.old ≡ [] }
    requires frames { frames.old.items ≡ [] }
    requires start { AreFrames (A.algebra automaton.now) (rules_of grammar.now.rules) frame.old [] }
    requires left { frame.old.left ≡ length (body_at (rules_of grammar.now.rules) frame.old.pair.rule) }
    requires stacked { AreStacked (A.algebra automaton.now) (rules_of grammar.now.rules) frame.old [] (reverse stack.old.items) (reverse labels.old.items) }
    requires notes { notes.old.top ≡ [] }
    ensures top { IfOk result (λ top. top ≡ up (A.algebra automaton.now) (value (rules_of grammar.now.rules)) []) }
    ensures run { OnOk result (IsRun (A.algebra automaton.now) (rules_of grammar.now.rules) known.new) }
    ensures noted { OnOk result (AreNoted (A.algebra automaton.now) (rules_of grammar.now.rules) (keys known.new) bodies.new) }
    ensures steps { (pairs : List (RuleStates A.State)) × ReadsOnce (A.algebra automaton.now) (rules_of grammar.now.rules) pairs (2 * length (body_at (rules_of grammar.now.rules) frame.old.pair.rule) + (steps.new - steps.old)) }
    ensures counted { steps.old ≤ steps.new }
{
    // The call tells that the rules are a grammar.
    let _rules = grammar.rules();
    'bodies: loop {
        match advance(
            alloc, automaton, grammar, known, frame, labels, stack, noted, notes,
        )? {
            Next::Waits(pair) => wait_for(grammar, pair, frame, frames, labels, notes, steps)?,
            Next::Done(state) => {
                bodies.keep(noted, notes)?;
                match frames.pop() {
                    None => return note_top(state, &mut frame.pair, known),
                    Some(below) => hand_back(noted, state, below, frame, known, stack, notes)?,
                }
            }
        }
    }
}

// Sets the body aside that waits for a pair, and begins the pair's own.
fn wait_for<S: RunState, L: Ledger>(
    grammar: &Grammar,
    pair: Pair<S>,
    frame: &mut Frame<S>,
    frames: &mut Vec<Frame<S>>,
    labels: &mut Vec<Label>,
    notes: &mut Layers<Note<S>>,
    steps: &mut Steps<L>,
) -> Result<(), AllocError>
    requires { IsPair (rules_of grammar.now.rules) (key_of pair) }
    ensures stands { (A : Algebra S) → OnOk result (Stands A (rules_of grammar.now.rules) frame.new) }
    ensures none { (A : Algebra S) → OnOk result (own A (rules_of grammar.now.rules) frame.new ≡ []) }
    ensures labels { OnOk result (reverse labels.new.items ≡ ahead (rules_of grammar.now.rules) frame.new ++ reverse labels.old.items) }
    ensures pair { OnOk result (frame.new.pair ≡ pair) }
    ensures cost { OnOk result (frame.new.left ≡ length (body_at (rules_of grammar.now.rules) pair.rule)) }
    ensures aside { OnOk result (frames.new.items ≡ frames.old.items ++ frame.old ∷ []) }
    ensures top { OnOk result (notes.new.top ≡ []) }
    ensures below { OnOk result (notes.new.below ≡ notes.old.top ∷ notes.old.below) }
    ensures steps { steps.new ≤ steps.old + 2 * length (body_at (rules_of grammar.now.rules) pair.rule) }
    ensures counted { steps.old ≤ steps.new }
{
    let next = begin(grammar, pair, labels, steps)?;
    frames.push(replace(frame, next))?;
    notes.open()
}

// Notes the state of the start, which is that of the whole, and answers it.
fn note_top<S: RunState>(state: S, pair: &mut Pair<S>, known: &mut Memo<S>) -> Result<S, AllocError>
    requires { All (λ e. e.0 ≢ key_of pair.old) known.old }
    ensures same { IfOk result (λ top. top ≡ state) }
    ensures known { OnOk result (known.new ≡ known.old ++ (key_of pair.old, state) ∷ []) }
{
    let top = state.copy()?;
    known.note(pair, state)?;
    Ok(top)
}

// Hands the state of a body that is done to the one below, which waits for it, and notes it as its pair's.
fn hand_back<S: RunState>(
    noted: bool,
    state: S,
    below: Frame<S>,
    frame: &mut Frame<S>,
    known: &mut Memo<S>,
    stack: &mut Vec<S>,
    notes: &mut Layers<Note<S>>,
) -> Result<(), AllocError>
    requires { All (λ e. e.0 ≢ key_of frame.old.pair) known.old }
    ensures known { OnOk result (known.new ≡ known.old ++ (key_of frame.old.pair, state) ∷ []) }
    ensures frame { OnOk result (frame.new ≡ below) }
    ensures stack { OnOk result (stack.new.items ≡ stack.old.items ++ state ∷ []) }
    ensures top { OnOk result (IsTrue noted → notes.new.top ≡ Note.Call (length known.old) ∷ get_or notes.old.below 0 []) }
    ensures below { OnOk result (notes.new.below ≡ drop 1 notes.old.below) }
{
    stack.push(state.copy()?)?;
    notes.close();
    let place = short(known.len())?;
    put_note(notes, noted, Note::Call(place))?;
    known.note(&mut frame.pair, state)?;
    *frame = below;
    Ok(())
}
