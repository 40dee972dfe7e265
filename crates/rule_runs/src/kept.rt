// The bodies of pairs that a run downward reads, as their notes: each is noted once, and the notes of all stand in one list.
ghost use Rattle.std.specs.Prelude.{◌≡◌, ◌+◌, ◌*◌, ◌<◌, ◌≤◌, ◌++◌, ◌∷◌, [], ℕ, List, Some, None, length, replicate, reverse, set, slice_get, IfOk, IsTrue, IsFalse, IfSome, IfNone, OnOk, OnErr, All};
ghost use Rattle.slt_grammar.specs.Algebras.{Algebra};
ghost use Rattle.slt_grammar.specs.Grammars.{body_at};
ghost use Rattle.slt_grammar.specs.Keyed.{rules_of};
ghost use Rattle.slt_grammar.specs.declared.rules.Rule.{Rule};
ghost use Rattle.rule_runs.specs.Notes.{AreKept, AreNoted, AreNotes, HasBody, unread};
ghost use Rattle.rule_runs.specs.Reached.{RuleStates};
ghost use Rattle.rule_runs.specs.Risen.{AreKnown, IsPair, IsRun, keys, pair_at, state_at};

use crate::body::append_body;
use crate::layers::Layers;
use crate::memo::Memo;
use crate::note_list::{NoteList, NoteSlice};
use crate::notes::{Note, note_labels};
use crate::rising::RiseTable;
use crate::span::Span;
use read_steps::Steps;
use slt_grammar::{Grammar, Label, Rising, RunState};
use std::alloc::{AllocError, Global};
use std::marker::Model;
use std::sync::ledger::Ledger;

// For each pair of the table of a run upward the notes of its body, the last node first, where they are kept. It is seen as the list
// of these.
pub(crate) struct Bodies<S: Drop> {
    // The notes of all bodies in the order in which they were noted, so that a body takes no memory of its own.
    notes: NoteList<S>,
    // Where those of each body stand.
    spans: Vec<Option<Span>>,
}

impl<S: Drop> Drop for Bodies<S> {
    fn drop(self) {
        let Bodies {
            notes: _notes,
            spans: _spans,
        } = self;
    }
}

impl<S: Drop> Model for Bodies<S> {
    ghost use Rattle.std.specs.Prelude.{List, Option, length, All};
    ghost use Rattle.rule_runs.specs.declared.notes.Note.{Note};
    ghost use Rattle.rule_runs.specs.Notes.{kept_of, IsWithin};

    ghost Value = { List (Option (List (Note S))) };

    ghost view = { λ b. kept_of b.notes b.spans.items };

    ghost invariant = { λ b. All (IsWithin (length b.notes)) b.spans.items };
}

impl<S: Drop> Bodies<S> {
    // The bodies of no pairs.
    pub(crate) fn new(alloc: Global) -> Bodies<S>
        ensures { result ≡ [] }
    {
        Bodies {
            notes: NoteList::new(alloc),
            spans: Vec::new(alloc),
        }
    }

    // The bodies of so many pairs, of which none is noted.
    fn unnoted(alloc: Global, pairs: usize) -> Result<Bodies<S>, AllocError>
        ensures { IfOk result (λ bodies. bodies ≡ replicate pairs None) }
    {
        let mut spans = Vec::with_capacity(alloc, pairs)?;
        'pairs: for _i in 0..pairs {
            spans.push(None)?;
        }
        Ok(Bodies {
            notes: NoteList::new(alloc),
            spans,
        })
    }

    // The notes of a pair's body, if it was noted.
    fn notes(&self, pair: usize) -> Option<NoteSlice<'_, S>>
        ensures some { IfSome result (λ notes. slice_get self.now pair ≡ Some (Some notes)) }
        ensures none { IfNone result (HasBody self.now pair → ⊥) }
    {
        match self.spans.get(pair) {
            Some(Some(span)) => Some(self.notes.slice(span)),
            _ => None,
        }
    }
}

impl<S: RunState> Bodies<S> {
    // Keeps the topmost notes as those of the next pair, where notes are made.
    pub(crate) fn keep(
        &mut self,
        noted: bool,
        notes: &mut Layers<Note<S>>,
    ) -> Result<(), AllocError>
        ensures kept { OnOk result (IsTrue noted → self.new ≡ self.old ++ Some (reverse notes.old.top) ∷ []) }
        ensures stays { OnOk result (IsFalse noted → self.new ≡ self.old) }
        ensures below { OnOk result (notes.new.below ≡ notes.old.below) }
    {
        if !noted {
            return Ok(());
        }
        let begin = self.notes.len();
        self.notes.append_top(notes)?;
        let span = Span::new(begin, self.notes.len())?;
        self.spans.push(Some(span))?;
        Ok(())
    }
}

/// What a run downward reads: the bodies that the run upward noted, and its own. It is seen as the list of both.
#[derive(Drop)]
pub struct Reading<'a, S: Drop> {
    // Those of no more pairs than its own.
    noted: &'a Bodies<S>,
    own: Bodies<S>,
    // What reading a body needs, kept for the next one.
    labels: Vec<Label>,
    states: Vec<S>,
}

impl<'a, S: Drop> Model for Reading<'a, S> {
    ghost use Rattle.std.specs.Prelude.{◌≤◌, List, Option, length};
    ghost use Rattle.rule_runs.specs.declared.notes.Note.{Note};
    ghost use Rattle.rule_runs.specs.Notes.{either};

    ghost Value = { List (Option (List (Note S))) };

    ghost view = { λ r. either r.noted.now r.own };

    ghost invariant = { λ r. length r.noted.now ≤ length r.own };
}

impl<'a, S: Drop> Reading<'a, S> {
    // Begins with what the run upward noted.
    pub(crate) fn new(
        alloc: Global,
        noted: &'a Bodies<S>,
        pairs: usize,
    ) -> Result<Reading<'a, S>, AllocError>
        requires { length noted.now ≤ pairs }
        ensures kept { (A : Algebra S) (G : List Rule) (ks : List (RuleStates S)) → length ks ≡ pairs → AreNoted A G ks noted.now → IfOk result (λ reading. AreKept A G ks reading) }
    {
        Ok(Reading {
            noted,
            own: Bodies::unnoted(alloc, pairs)?,
            labels: Vec::new(alloc),
            states: Vec::new(alloc),
        })
    }

    /// The notes of a pair's body, if it was noted or read.
    pub fn notes(&self, pair: usize) -> Option<NoteSlice<'_, S>>
        ensures some { IfSome result (λ notes. slice_get self.now pair ≡ Some (Some notes)) }
        ensures none { IfNone result (HasBody self.now pair → ⊥) }
    {
        match self.noted.notes(pair) {
            Some(notes) => Some(notes),
            None => self.own.notes(pair),
        }
    }
}

// Notes the body of a pair, of which these are the labels.
fn note_body<A: Rising>(
    alloc: Global,
    automaton: &A,
    grammar: &Grammar,
    known: &Memo<A::State>,
    met: (usize, &[A::State]),
    labels: &Vec<Label>,
    states: &mut Vec<A::State>,
    bodies: &mut Bodies<A::State>,
    pair: usize,
) -> Result<(), AllocError>
    requires right { All (λ e. e.1 ≡ state_at (A.algebra automaton.now) (rules_of grammar.now.rules) e.0) known.now }
    requires met { IsPair (rules_of grammar.now.rules) (met.0, met.1.now) }
    requires closed { AreKnown (A.algebra automaton.now) (rules_of grammar.now.rules) known.now (met.0, met.1.now) 0 }
    requires labels { labels.now.items ≡ body_at (rules_of grammar.now.rules) met.0 }
    requires there { pair < length bodies.old }
    ensures noted { OnOk result ((notes : List (Note A.State)) × (bodies.new ≡ set bodies.old pair (Some notes)) × AreNotes (A.algebra automaton.now) (rules_of grammar.now.rules) (keys known.now) met.entry.1.now labels.now.items (reverse notes)) }
    ensures stays { OnErr result (bodies.new ≡ bodies.old) }
{
    let begin = bodies.notes.len();
    note_labels(
        alloc,
        automaton,
        grammar,
        known,
        met,
        labels,
        states,
        &mut bodies.notes,
    )?;
    let span = Span::new(begin, bodies.notes.len())?;
    bodies.spans[pair] = Some(span);
    Ok(())
}

/// Reads the body of a pair if it wasn't read yet, with at most two steps for each of its nodes. It answers how many those are.
pub fn read<A: Rising, L: Ledger>(
    alloc: Global,
    automaton: &A,
    grammar: &Grammar,
    risen: &RiseTable<A::State>,
    bodies: &mut Reading<'_, A::State>,
    pair: usize,
    steps: &mut Steps<L>,
) -> Result<usize, AllocError>
    requires run { IsRun (A.algebra automaton.now) (rules_of grammar.now.rules) risen.now.known }
    requires there { pair < length (keys risen.now.known) }
    requires kept { AreKept (A.algebra automaton.now) (rules_of grammar.now.rules) (keys risen.now.known) bodies.old }
    ensures kept { AreKept (A.algebra automaton.now) (rules_of grammar.now.rules) (keys risen.now.known) bodies.new }
    ensures stays { (i : ℕ) → HasBody bodies.old i → HasBody bodies.new i }
    ensures read { OnOk result (HasBody bodies.new pair) }
    ensures nodes { IfOk result (λ nodes. nodes ≡ length (body_at (rules_of grammar.now.rules) (pair_at (keys risen.now.known) pair).0)) }
    ensures steps { steps.new ≤ steps.old + 2 * length (body_at (rules_of grammar.now.rules) (pair_at (keys risen.now.known) pair).0) }
    ensures counted { steps.old ≤ steps.new }
    ensures reads { steps.new ≤ steps.old + 2 * unread (rules_of grammar.now.rules) (keys risen.now.known) bodies.old }
    ensures once { OnOk result (steps.new + 2 * unread (rules_of grammar.now.rules) (keys risen.now.known) bodies.new ≤ steps.old + 2 * unread (rules_of grammar.now.rules) (keys risen.now.known) bodies.old) }
{
    // The call tells that the rules are a grammar.
    let _rules = grammar.rules();
    if let Some(notes) = bodies.notes(pair) {
        return Ok(notes.len());
    }
    let Some(met) = risen.known.pair(pair) else {
        unreachable!()
    };
    bodies.labels.clear();
    append_body(grammar, met.0, &mut bodies.labels, steps)?;
    note_body(
        alloc,
        automaton,
        grammar,
        &risen.known,
        met,
        &bodies.labels,
        &mut bodies.states,
        &mut bodies.own,
        pair,
    )?;
    Ok(bodies.labels.len())
}
