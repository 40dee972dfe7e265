// A body as a run downward reads it: its nodes with the states from below that each of them asks for.
ghost use Rattle.std.specs.Prelude.{◌≡◌, ◌≢◌, ◌+◌, ◌<◌, ◌≤◌, ◌∷◌, ◌++◌, ℕ, List, length, take, drop, reverse, vec_len, IfOk, OnOk, All};
ghost use Rattle.slt_grammar.specs.Algebras.{apply, all_meanings, ranks_of};
ghost use Rattle.slt_grammar.specs.Bodies.{arity};
ghost use Rattle.slt_grammar.specs.Grammars.{body_at};
ghost use Rattle.slt_grammar.specs.Keyed.{rules_of};
ghost use Rattle.rule_runs.specs.Entries.{key_of};
ghost use Rattle.rule_runs.specs.Frames.{Asks};
ghost use Rattle.rule_runs.specs.Risen.{IsPair, AreKnown, state_at, keys};
ghost use Rattle.rule_runs.specs.Notes.{NoteIs, AreNotes};

use crate::calls::{Called, take_call};
use crate::memo::{Memo, Pair};
use crate::note_list::NoteList;
use crate::place::short;
use crate::stack::{copy_at, pop_two};
use slt_grammar::{Grammar, Label, Rising, RunState};
use std::alloc::{AllocError, Global};

/// A node: a symbol with the states of its two children, a call with the place of its pair in the table.
#[derive(Drop)]
pub enum Note<S: Drop> {
    Bottom,
    Param,
    Symbol(u32, S, S),
    Call(u32),
}

// What there is of a label: its note, or the pair of a call whose state is not known.
#[derive(Drop)]
pub(crate) enum Noted<S: Drop> {
    Known(Note<S>),
    Unknown(Pair<S>),
}

// Puts the state of a node that is no parameter in the place of its children's states, and notes the node; or answers the pair whose
// state is not known.
pub(crate) fn note_label<A: Rising>(
    alloc: Global,
    automaton: &A,
    grammar: &Grammar,
    known: &Memo<A::State>,
    label: Label,
    stack: &mut Vec<A::State>,
) -> Result<Noted<A::State>, AllocError>
    requires right { All (λ e. e.1 ≡ state_at (A.algebra automaton.now) (rules_of grammar.now.rules) e.0) known.now }
    requires there { (q : ℕ) → label ≡ Label.Call q → q < length grammar.now.rules }
    requires enough { arity (ranks_of (rules_of grammar.now.rules)) label ≤ vec_len stack.old }
    requires real { label ≢ Label.Param }
    ensures state { IfOk result (λ noted. (note : Note A.State) → noted ≡ Noted.Known note → reverse stack.new.items ≡ apply (A.algebra automaton.now) (all_meanings (A.algebra automaton.now) (rules_of grammar.now.rules)) label (take (arity (ranks_of (rules_of grammar.now.rules)) label) (reverse stack.old.items)) ∷ drop (arity (ranks_of (rules_of grammar.now.rules)) label) (reverse stack.old.items)) }
    ensures note { IfOk result (λ noted. (note : Note A.State) → noted ≡ Noted.Known note → NoteIs (A.algebra automaton.now) (rules_of grammar.now.rules) (keys known.now) label (reverse stack.old.items) note) }
    ensures asks { IfOk result (λ noted. (pair : Pair A.State) → noted ≡ Noted.Unknown pair → Asks (rules_of grammar.now.rules) label (reverse stack.old.items) pair (reverse stack.new.items)) }
    ensures new { IfOk result (λ noted. (pair : Pair A.State) → noted ≡ Noted.Unknown pair → All (λ e. e.0 ≢ key_of pair) known.now) }
{
    match label {
        Label::Symbol(symbol) => {
            let (kids, rest) = pop_two(stack);
            stack.push(automaton.node(symbol, &kids, &rest)?)?;
            Ok(Noted::Known(Note::Symbol(short(symbol)?, kids, rest)))
        }
        Label::Call(rule) => match take_call(alloc, grammar, known, rule, stack)? {
            Called::Known(place, state) => {
                let noted = short(place)?;
                stack.push(state)?;
                Ok(Noted::Known(Note::Call(noted)))
            }
            Called::Unknown(pair) => Ok(Noted::Unknown(pair)),
        },
        _ => {
            stack.push(automaton.bottom()?)?;
            Ok(Noted::Known(Note::Bottom))
        }
    }
}

// Puts the notes of a pair's body, the last node first, behind those of other bodies.
pub(crate) fn note_labels<A: Rising>(
    alloc: Global,
    automaton: &A,
    grammar: &Grammar,
    known: &Memo<A::State>,
    pair: (usize, &[A::State]),
    labels: &Vec<Label>,
    stack: &mut Vec<A::State>,
    notes: &mut NoteList<A::State>,
) -> Result<(), AllocError>
    requires right { All (λ e. e.1 ≡ state_at (A.algebra automaton.now) (rules_of grammar.now.rules) e.0) known.now }
    requires pair { IsPair (rules_of grammar.now.rules) (pair.0, pair.1.now) }
    requires closed { AreKnown (A.algebra automaton.now) (rules_of grammar.now.rules) known.now (pair.0, pair.1.now) 0 }
    requires labels { labels.now.items ≡ body_at (rules_of grammar.now.rules) pair.0 }
    ensures { (more : List (Note A.State)) × (notes.new ≡ notes.old ++ more) × OnOk result (AreNotes (A.algebra automaton.now) (rules_of grammar.now.rules) (keys known.now) pair.entry.1.now labels.now.items (reverse more)) }
{
    // The call tells that the rules are a grammar.
    let _rules = grammar.rules();
    let (_, states) = pair;
    notes.reserve(labels.len())?;
    stack.clear();
    let mut waiting = states.len();
    let mut left = labels.len();
    'labels: while left > 0 {
        left -= 1;
        let label = labels[left];
        if let Label::Param = label {
            waiting -= 1;
            stack.push(copy_at(states, waiting)?)?;
            notes.push(Note::Param)?;
        } else {
            match note_label(alloc, automaton, grammar, known, label, stack)? {
                Noted::Known(note) => notes.push(note)?,
                // The table knows each call.
                Noted::Unknown(_) => unreachable!(),
            }
        }
    }
    Ok(())
}
