// Notes in little memory: the states of a symbol's children stand in a list of their own, since most nodes have none.
ghost use Rattle.std.specs.Prelude.{◌≡◌, ◌<◌, ◌≤◌, ◌++◌, ◌∷◌, [], List, Some, length, take, drop, reverse, slice_get, slice_range, IfOk, OnOk, OnErr};
ghost use Rattle.rule_runs.specs.NoteLists.{in_full, HasStates, seen};

use crate::layers::Layers;
use crate::notes::Note;
use crate::place::short;
use crate::span::Span;
use slt_grammar::RunState;
use std::alloc::{AllocError, Global};
use std::marker::Model;

// A note without states: a symbol has the place of those of its children.
#[derive(Clone, Copy, Drop)]
pub(crate) enum Brief {
    Bottom,
    Param,
    Symbol(u32, u32),
    Call(u32),
}

// Notes one behind another. It is seen as the list of them.
pub(crate) struct NoteList<S: Drop> {
    notes: Vec<Brief>,
    // The states of the two children of symbols.
    states: Vec<(S, S)>,
}

impl<S: Drop> Drop for NoteList<S> {
    fn drop(self) {
        let NoteList {
            notes: _notes,
            states: _states,
        } = self;
    }
}

impl<S: Drop> Model for NoteList<S> {
    ghost use Rattle.std.specs.Prelude.{List, length, map, All};
    ghost use Rattle.rule_runs.specs.declared.notes.Note.{Note};
    ghost use Rattle.rule_runs.specs.NoteLists.{in_full, HasStates};

    ghost Value = { List (Note S) };

    ghost view = { λ l. map (in_full l.states.items) l.notes.items };

    ghost invariant = { λ l. All (HasStates (length l.states.items)) l.notes.items };
}

impl<S: Drop> NoteList<S> {
    pub(crate) fn new(alloc: Global) -> NoteList<S>
        ensures { result ≡ [] }
    {
        NoteList {
            notes: Vec::new(alloc),
            states: Vec::new(alloc),
        }
    }

    pub(crate) fn len(&self) -> usize
        ensures { result ≡ length self.now }
    {
        self.notes.len()
    }

    // Makes room for so many notes more.
    pub(crate) fn reserve(&mut self, more: usize) -> Result<(), AllocError>
        ensures { self.new ≡ self.old }
    {
        self.notes.reserve(more)
    }

    // Turns the notes from a place on around.
    fn reverse_from(&mut self, begin: usize)
        requires { begin ≤ length self.old }
        ensures { self.new ≡ take begin self.old ++ reverse (drop begin self.old) }
    {
        self.notes.slice_mut(begin..).reverse();
    }

    // The notes at a span.
    pub(crate) fn slice(&self, span: &Span) -> NoteSlice<'_, S>
        requires order { span.now.begin ≤ span.now.end }
        requires within { span.now.end ≤ length self.now }
        ensures { result ≡ slice_range self.now span.now.begin span.now.end }
    {
        NoteSlice {
            notes: span.of(&self.notes),
            states: &self.states,
        }
    }
}

impl<S: RunState> NoteList<S> {
    // Puts a note behind the others.
    pub(crate) fn push(&mut self, note: Note<S>) -> Result<(), AllocError>
        ensures pushed { OnOk result (self.new ≡ self.old ++ note ∷ []) }
        ensures refused { OnErr result (self.new ≡ self.old) }
    {
        let brief = shorten(note, &mut self.states)?;
        self.notes.push(brief)?;
        Ok(())
    }

    // Puts the topmost of these notes, the last one its top, behind the others.
    pub(crate) fn append_top(&mut self, notes: &mut Layers<Note<S>>) -> Result<(), AllocError>
        ensures moved { (more : List (Note S)) × (self.new ≡ self.old ++ more) × OnOk result (more ≡ reverse notes.old.top) }
        ensures top { OnOk result (notes.new.top ≡ []) }
        ensures below { OnOk result (notes.new.below ≡ notes.old.below) }
    {
        let begin = self.len();
        'notes: while let Some(note) = notes.pop() {
            self.push(note)?;
        }
        self.reverse_from(begin);
        Ok(())
    }
}

// A note without the states of its children, which are kept.
fn shorten<S: RunState>(note: Note<S>, states: &mut Vec<(S, S)>) -> Result<Brief, AllocError>
    ensures more { (more : List (S × S)) × (states.new.items ≡ states.old.items ++ more) }
    ensures full { IfOk result (λ brief. in_full states.new.items brief ≡ note) }
    ensures there { IfOk result (HasStates (length states.new.items)) }
{
    match note {
        Note::Bottom => Ok(Brief::Bottom),
        Note::Param => Ok(Brief::Param),
        Note::Symbol(symbol, kids, rest) => {
            let place = keep_states(states, kids, rest)?;
            Ok(Brief::Symbol(symbol, place))
        }
        Note::Call(pair) => Ok(Brief::Call(pair)),
    }
}

// Keeps the states of a symbol's children, and answers their place. Where they are those of the last symbol, they serve again.
fn keep_states<S: RunState>(states: &mut Vec<(S, S)>, kids: S, rest: S) -> Result<u32, AllocError>
    ensures more { (more : List (S × S)) × (states.new.items ≡ states.old.items ++ more) }
    ensures place { IfOk result (λ place. slice_get states.new.items place ≡ Some (kids, rest)) }
{
    let count = states.len();
    if count > 0 {
        let last = &states[count - 1];
        if last.0 == kids && last.1 == rest {
            return short(count - 1);
        }
    }
    let place = short(count)?;
    states.push((kids, rest))?;
    Ok(place)
}

/// Some notes of a list.
#[derive(Drop)]
pub struct NoteSlice<'a, S: Drop> {
    notes: &'a [Brief],
    states: &'a Vec<(S, S)>,
}

impl<'a, S: Drop> Model for NoteSlice<'a, S> {
    ghost use Rattle.std.specs.Prelude.{List, length, map, All};
    ghost use Rattle.rule_runs.specs.declared.notes.Note.{Note};
    ghost use Rattle.rule_runs.specs.NoteLists.{in_full, HasStates};

    ghost Value = { List (Note S) };

    ghost view = { λ s. map (in_full s.states.now.items) s.notes.now };

    ghost invariant = { λ s. All (HasStates (length s.states.now.items)) s.notes.now };
}

/// A note that is looked at: a symbol with the states of its two children, a call with the place of its pair.
#[derive(Drop)]
pub enum Seen<'a, S: Drop> {
    Bottom,
    Param,
    Symbol(usize, &'a S, &'a S),
    Call(usize),
}

impl<'a, S: Drop> NoteSlice<'a, S> {
    pub fn len(&self) -> usize
        ensures { result ≡ length self.now }
    {
        self.notes.len()
    }

    /// The note at a place.
    pub fn at(&self, place: usize) -> Seen<'a, S>
        requires { place < length self.now }
        ensures { slice_get self.now place ≡ Some (seen result) }
    {
        let notes = self.notes;
        let brief = notes[place];
        match brief {
            Brief::Bottom => Seen::Bottom,
            Brief::Param => Seen::Param,
            Brief::Symbol(symbol, states) => {
                let states = &self.states[states as usize];
                Seen::Symbol(symbol as usize, &states.0, &states.1)
            }
            Brief::Call(pair) => Seen::Call(pair as usize),
        }
    }
}
