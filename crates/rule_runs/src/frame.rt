// Rule bodies that a run upward evaluates, label by label from their end.
ghost use Rattle.std.specs.Prelude.{◌≡◌, ◌≢◌, ◌+◌, ◌++◌, ◌*◌, ◌<◌, ◌≤◌, [], ◌∷◌, length, drop, reverse, IfOk, IsTrue, OnOk, All};
ghost use Rattle.slt_grammar.specs.Algebras.{Algebra};
ghost use Rattle.slt_grammar.specs.Grammars.{body_at};
ghost use Rattle.slt_grammar.specs.Keyed.{rules_of};
ghost use Rattle.rule_runs.specs.Entries.{key_of};
ghost use Rattle.rule_runs.specs.Risen.{IsPair, AreKnown, state_at, keys};
ghost use Rattle.rule_runs.specs.Notes.{AreNotes, AreNotesFrom};
ghost use Rattle.rule_runs.specs.Frames.{Stands, Waits, AreKnownBut, IsNotedTo, own, ahead, IsTopmost, GivesWay};

use crate::body::append_body;
use crate::layers::Layers;
use crate::memo::{Memo, Pair};
use crate::notes::{Note, Noted, note_label};
use crate::stack::copy_at;
use read_steps::Steps;
use slt_grammar::{Grammar, Label, Rising, RunState};
use std::alloc::{AllocError, Global};
use std::sync::ledger::Ledger;

// A rule's body that is being evaluated from its end. Its labels that are left, and the states of what was evaluated, are topmost on
// lists that all bodies share: most bodies are short, and lists of their own would cost more than the labels do.
#[derive(Drop)]
pub(crate) struct Frame<S: Drop> {
    pub(crate) pair: Pair<S>,
    // How many labels are left, and how many parameters among them.
    pub(crate) left: usize,
    pub(crate) waiting: usize,
}

// What comes next of a body: its state, or the pair whose state it waits for.
#[derive(Drop)]
pub(crate) enum Next<S: Drop> {
    Done(S),
    Waits(Pair<S>),
}

// Begins a body: puts its labels on top. At most two steps for each of its nodes.
pub(crate) fn begin<S: RunState, L: Ledger>(
    grammar: &Grammar,
    pair: Pair<S>,
    labels: &mut Vec<Label>,
    steps: &mut Steps<L>,
) -> Result<Frame<S>, AllocError>
    requires { IsPair (rules_of grammar.now.rules) (key_of pair) }
    ensures stands { (A : Algebra S) → IfOk result (λ frame. Stands A (rules_of grammar.now.rules) frame) }
    ensures none { (A : Algebra S) → IfOk result (λ frame. own A (rules_of grammar.now.rules) frame ≡ []) }
    ensures labels { IfOk result (λ frame. reverse labels.new.items ≡ ahead (rules_of grammar.now.rules) frame ++ reverse labels.old.items) }
    ensures pair { IfOk result (λ frame. frame.pair ≡ pair) }
    ensures cost { IfOk result (λ frame. frame.left ≡ length (body_at (rules_of grammar.now.rules) pair.rule)) }
    ensures steps { steps.new ≤ steps.old + 2 * length (body_at (rules_of grammar.now.rules) pair.rule) }
    ensures counted { steps.old ≤ steps.new }
{
    // The call tells that the rules are a grammar.
    let _rules = grammar.rules();
    let others = labels.len();
    append_body(grammar, pair.rule, labels, steps)?;
    Ok(Frame {
        left: labels.len() - others,
        waiting: pair.states.len(),
        pair,
    })
}

// Puts a note on top, where notes are made.
pub(crate) fn put_note<S: Drop>(
    notes: &mut Layers<Note<S>>,
    noted: bool,
    note: Note<S>,
) -> Result<(), AllocError>
    ensures top { OnOk result (IsTrue noted → notes.new.top ≡ note ∷ notes.old.top) }
    ensures below { OnOk result (notes.new.below ≡ notes.old.below) }
{
    if noted {
        notes.push(note)?;
    }
    Ok(())
}

// Evaluates a body on to its root or to a call whose state is not known. What is its own is taken off the lists where it is done; where
// it waits, its states stand there but for the one that it waits for.
pub(crate) fn advance<A: Rising>(
    alloc: Global,
    automaton: &A,
    grammar: &Grammar,
    known: &Memo<A::State>,
    frame: &mut Frame<A::State>,
    labels: &mut Vec<Label>,
    stack: &mut Vec<A::State>,
    noted: bool,
    notes: &mut Layers<Note<A::State>>,
) -> Result<Next<A::State>, AllocError>
    requires right { All (λ e. e.1 ≡ state_at (A.algebra automaton.now) (rules_of grammar.now.rules) e.0) known.now }
    requires stands { Stands (A.algebra automaton.now) (rules_of grammar.now.rules) frame.old }
    requires states { IsTopmost (own (A.algebra automaton.now) (rules_of grammar.now.rules) frame.old) (reverse stack.old.items) }
    requires labels { IsTopmost (ahead (rules_of grammar.now.rules) frame.old) (reverse labels.old.items) }
    requires closed { AreKnown (A.algebra automaton.now) (rules_of grammar.now.rules) known.now (key_of frame.old.pair) frame.old.left }
    requires noted { IsTrue noted → AreNotesFrom (A.algebra automaton.now) (rules_of grammar.now.rules) (keys known.now) frame.old.left frame.old.pair.states.items (body_at (rules_of grammar.now.rules) frame.old.pair.rule) notes.old.top }
    ensures same { frame.new.pair ≡ frame.old.pair }
    ensures noted { IfOk result (λ next. (state : A.State) → next ≡ Next.Done state → IsTrue noted → AreNotes (A.algebra automaton.now) (rules_of grammar.now.rules) (keys known.now) frame.old.pair.states.items (body_at (rules_of grammar.now.rules) frame.old.pair.rule) notes.new.top) }
    ensures behind { IfOk result (λ next. (pair : Pair A.State) → next ≡ Next.Waits pair → IsTrue noted → IsNotedTo (A.algebra automaton.now) (rules_of grammar.now.rules) (keys known.now) frame.new (key_of pair) notes.new.top) }
    ensures below { OnOk result (notes.new.below ≡ notes.old.below) }
    ensures closed { IfOk result (λ next. (state : A.State) → next ≡ Next.Done state → AreKnown (A.algebra automaton.now) (rules_of grammar.now.rules) known.now (key_of frame.old.pair) 0) }
    ensures awaiting { IfOk result (λ next. (pair : Pair A.State) → next ≡ Next.Waits pair → AreKnownBut (A.algebra automaton.now) (rules_of grammar.now.rules) known.now (key_of frame.new.pair) frame.new.left (key_of pair)) }
    ensures done { IfOk result (λ next. (state : A.State) → next ≡ Next.Done state → state ≡ state_at (A.algebra automaton.now) (rules_of grammar.now.rules) (key_of frame.old.pair)) }
    ensures waits { IfOk result (λ next. (pair : Pair A.State) → next ≡ Next.Waits pair → Waits (A.algebra automaton.now) (rules_of grammar.now.rules) frame.old pair frame.new) }
    ensures new { IfOk result (λ next. (pair : Pair A.State) → next ≡ Next.Waits pair → All (λ e. e.0 ≢ key_of pair) known.now) }
    ensures cleared { IfOk result (λ next. (state : A.State) → next ≡ Next.Done state → GivesWay (own (A.algebra automaton.now) (rules_of grammar.now.rules) frame.old) [] (reverse stack.old.items) (reverse stack.new.items)) }
    ensures emptied { IfOk result (λ next. (state : A.State) → next ≡ Next.Done state → GivesWay (ahead (rules_of grammar.now.rules) frame.old) [] (reverse labels.old.items) (reverse labels.new.items)) }
    ensures states { IfOk result (λ next. (pair : Pair A.State) → next ≡ Next.Waits pair → GivesWay (own (A.algebra automaton.now) (rules_of grammar.now.rules) frame.old) (drop 1 (own (A.algebra automaton.now) (rules_of grammar.now.rules) frame.new)) (reverse stack.old.items) (reverse stack.new.items)) }
    ensures labels { IfOk result (λ next. (pair : Pair A.State) → next ≡ Next.Waits pair → GivesWay (ahead (rules_of grammar.now.rules) frame.old) (ahead (rules_of grammar.now.rules) frame.new) (reverse labels.old.items) (reverse labels.new.items)) }
{
    // The call tells that the rules are a grammar.
    let _rules = grammar.rules();
    'nodes: while frame.left > 0 {
        let Some(label) = labels.pop() else {
            unreachable!()
        };
        frame.left -= 1;
        if let Label::Param = label {
            frame.waiting -= 1;
            stack.push(copy_at(&frame.pair.states, frame.waiting)?)?;
            put_note(notes, noted, Note::Param)?;
        } else {
            match note_label(alloc, automaton, grammar, known, label, stack)? {
                Noted::Known(note) => put_note(notes, noted, note)?,
                Noted::Unknown(pair) => return Ok(Next::Waits(pair)),
            }
        }
    }
    match stack.pop() {
        Some(state) => Ok(Next::Done(state)),
        None => unreachable!(),
    }
}
