// Rule bodies that a run downward reads, node by node from their root.
ghost use Rattle.std.specs.Prelude.{◌≡◌, ◌≢◌, ◌+◌, ◌*◌, ◌^◌, ◌<◌, ◌≤◌, ◌++◌, ◌∷◌, ℕ, List, [], length, get_or, drop, reverse, IfOk, OnOk, All};
ghost use Rattle.slt_grammar.specs.Automata.{nodes_in};
ghost use Rattle.slt_grammar.specs.Grammars.{body_at, value_at};
ghost use Rattle.slt_grammar.specs.Keyed.{rules_of};
ghost use Rattle.rule_runs.specs.Reached.{Falls};
ghost use Rattle.rule_runs.specs.Cuts.{Stretch, nothing, one, beside};
ghost use Rattle.rule_runs.specs.Listing.{AreEarlier};
ghost use Rattle.rule_runs.specs.Notes.{AreNotes, AreKept, HasBody, unread};
ghost use Rattle.rule_runs.specs.Outcomes.{outcome, downs_handed, tolds};
ghost use Rattle.rule_runs.specs.Risen.{IsRun, keys, pair_at};
ghost use Rattle.rule_runs.specs.Tellings.{Listed, Extends, HasRoom, IsTelling, AreTold};
ghost use Rattle.rule_runs.specs.Walks.{Open, woven_marks};
ghost use Rattle.rule_runs.specs.Descents.{AreOpen, HasRoomAhead, IsNext, HasOutcome, Standing, Asks};

use crate::kept::{Reading, read};
use crate::layers::Layers;
use crate::listing::HitLists;
use crate::note_list::{NoteSlice, Seen};
use crate::rising::RiseTable;
use crate::spots::{Handed, Spot, Spots};
use crate::told::{Here, Told};
use read_steps::Steps;
use slt_grammar::{Falling, Fell, Grammar, RunState};
use std::alloc::{AllocError, Global};
use std::mem::swap;
use std::sync::ledger::Ledger;

// What is still open on the way through a body: a term with its down state, or a stretch of a call behind an argument.
#[derive(Drop)]
pub(crate) enum Mark<D: Drop> {
    Term(D),
    Piece(Told),
}

// A body that is being read from its root.
#[derive(Drop)]
pub(crate) struct Descent<D: Drop> {
    pub(crate) spot: Spot<D>,
    // How many of the pair's notes are left. They stand from the last node to the first, so that the next one is the last of these.
    pub(crate) left: usize,
    pub(crate) here: Here,
    // The parameters that were met.
    pub(crate) handed: Vec<Handed<D>>,
}

// What comes next of a body: the stretch behind its last parameter, or the spot whose outcome it waits for.
#[derive(Drop)]
pub(crate) enum Descended<D: Drop> {
    Done(Told),
    Waits(Spot<D>),
}

// Gives a list that is empty the memory of another one, whose items are no longer needed.
pub(crate) fn reuse<T: Drop>(list: &mut Vec<T>, spare: &mut Vec<T>)
    ensures { list.new.items ≡ list.old.items }
{
    if list.is_empty() {
        spare.clear();
        swap(list, spare);
    }
}

// Begins a body, which is read where that wasn't done yet. At most two steps for each of its nodes.
pub(crate) fn begin<A: Falling, L: Ledger>(
    alloc: Global,
    automaton: &A,
    grammar: &Grammar,
    risen: &RiseTable<A::State>,
    bodies: &mut Reading<'_, A::State>,
    marks: &mut Layers<Mark<A::Down>>,
    spot: Spot<A::Down>,
    spare: &mut Vec<Handed<A::Down>>,
    steps: &mut Steps<L>,
) -> Result<Descent<A::Down>, AllocError>
    requires run { IsRun (A.algebra automaton.now) (rules_of grammar.now.rules) risen.now.known }
    requires there { spot.pair < length (keys risen.now.known) }
    requires met { Falls A.State A.Down (A.algebra automaton.now) (A.downward automaton.now) (rules_of grammar.now.rules) (pair_at (keys risen.now.known) spot.pair).0 (pair_at (keys risen.now.known) spot.pair).1 spot.down }
    requires kept { AreKept (A.algebra automaton.now) (rules_of grammar.now.rules) (keys risen.now.known) bodies.old }
    requires fresh { marks.old.top ≡ [] }
    ensures kept { AreKept (A.algebra automaton.now) (rules_of grammar.now.rules) (keys risen.now.known) bodies.new }
    ensures stays { (i : ℕ) → HasBody bodies.old i → HasBody bodies.new i }
    ensures read { OnOk result (HasBody bodies.new spot.pair) }
    ensures spot { IfOk result (λ descent. descent.spot ≡ spot) }
    ensures stands { IfOk result (λ descent. (lists : Listed) → Standing (A.algebra automaton.now) (A.downward automaton.now) (rules_of grammar.now.rules) (keys risen.now.known) lists descent marks.new.top) }
    ensures below { OnOk result (marks.new.below ≡ marks.old.below) }
    ensures cost { IfOk result (λ descent. descent.left ≡ length (body_at (rules_of grammar.now.rules) (pair_at (keys risen.now.known) spot.pair).0)) }
    ensures steps { steps.new ≤ steps.old + 2 * length (body_at (rules_of grammar.now.rules) (pair_at (keys risen.now.known) spot.pair).0) }
    ensures counted { steps.old ≤ steps.new }
    ensures reads { steps.new ≤ steps.old + 2 * unread (rules_of grammar.now.rules) (keys risen.now.known) bodies.old }
    ensures once { OnOk result (steps.new + 2 * unread (rules_of grammar.now.rules) (keys risen.now.known) bodies.new ≤ steps.old + 2 * unread (rules_of grammar.now.rules) (keys risen.now.known) bodies.old) }
{
    // The call tells that the rules are a grammar.
    let _rules = grammar.rules();
    let left = read(alloc, automaton, grammar, risen, bodies, spot.pair, steps)?;
    let mut handed = Vec::new(alloc);
    reuse(&mut handed, spare);
    marks.push(Mark::Term(spot.down.copy()?))?;
    Ok(Descent {
        spot,
        left,
        here: Here::new(alloc),
        handed,
    })
}

// Reads a body on to its end, or to a call whose outcome is not known.
pub(crate) fn descend<A: Falling>(
    alloc: Global,
    automaton: &A,
    grammar: &Grammar,
    risen: &RiseTable<A::State>,
    notes: NoteSlice<'_, A::State>,
    known: &Spots<A::Down>,
    lists: &mut HitLists,
    marks: &mut Layers<Mark<A::Down>>,
    descent: &mut Descent<A::Down>,
) -> Result<Descended<A::Down>, AllocError>
    requires run { IsRun (A.algebra automaton.now) (rules_of grammar.now.rules) risen.now.known }
    requires noted { AreNotes (A.algebra automaton.now) (rules_of grammar.now.rules) (keys risen.now.known) (pair_at (keys risen.now.known) descent.old.spot.pair).1 (body_at (rules_of grammar.now.rules) (pair_at (keys risen.now.known) descent.old.spot.pair).0) (reverse notes) }
    requires known { All (λ e. HasOutcome (A.algebra automaton.now) (A.downward automaton.now) (rules_of grammar.now.rules) (keys risen.now.known) lists.old e.0 e.1) known.now }
    requires earlier { AreEarlier lists.old.lists }
    requires there { descent.old.spot.pair < length (keys risen.now.known) }
    requires small { nodes_in (value_at (rules_of grammar.now.rules) (pair_at (keys risen.now.known) descent.old.spot.pair).0) < 2 ^ 63 }
    requires stands { Standing (A.algebra automaton.now) (A.downward automaton.now) (rules_of grammar.now.rules) (keys risen.now.known) lists.old descent.old marks.old.top }
    ensures same { descent.new.spot ≡ descent.old.spot }
    ensures more { OnOk result (Extends lists.old lists.new) }
    ensures earlier { OnOk result (AreEarlier lists.new.lists) }
    ensures done { IfOk result (λ next. (last : Told) → next ≡ Descended.Done last → HasOutcome (A.algebra automaton.now) (A.downward automaton.now) (rules_of grammar.now.rules) (keys risen.now.known) lists.new descent.new.spot (outcome descent.new.handed.items last)) }
    ensures waits { IfOk result (λ next. (spot : Spot A.Down) → next ≡ Descended.Waits spot → Asks (A.algebra automaton.now) (A.downward automaton.now) (rules_of grammar.now.rules) (keys risen.now.known) lists.new descent.old spot descent.new marks.new.top) }
    ensures below { OnOk result (marks.new.below ≡ marks.old.below) }
    ensures new { IfOk result (λ next. (spot : Spot A.Down) → next ≡ Descended.Waits spot → All (λ e. e.0 ≢ spot) known.now) }
{
    // The call tells that the rules are a grammar.
    let _rules = grammar.rules();
    'notes: while descent.left > 0 {
        descent.left -= 1;
        let note = notes.at(descent.left);
        let Some(down) = next_term(marks, &mut descent.here)? else {
            unreachable!()
        };
        match note {
            Seen::Bottom => {}
            Seen::Param => {
                let before = descent.here.finish(alloc, lists)?;
                descent.handed.push(Handed { before, down })?;
            }
            Seen::Symbol(symbol, kids, rest) => {
                let fell = automaton.step(symbol, &down, kids, rest)?;
                enter_symbol(marks, &mut descent.here, symbol, fell, lists.are_kept())?;
            }
            Seen::Call(pair) => {
                let spot = Spot { pair, down };
                match known.find(&spot) {
                    Some((handed, last)) => enter_call(marks, &mut descent.here, handed, last)?,
                    None => return Ok(Descended::Waits(spot)),
                }
            }
        }
    }
    next_term(marks, &mut descent.here)?;
    let last = descent.here.finish(alloc, lists)?;
    Ok(Descended::Done(last))
}

// Goes to the next term, and answers its down state; none where nothing is open any more.
fn next_term<D: Drop>(marks: &mut Layers<Mark<D>>, here: &mut Here) -> Result<Option<D>, AllocError>
    requires { HasRoomAhead here.old marks.old.top }
    ensures next { IfOk result (λ found. (lists : Listed) (s : Stretch) (ms : List (Open D)) → IsTelling lists here.old s → AreOpen lists marks.old.top ms → IsNext lists found s ms marks.new.top here.new) }
    ensures below { marks.new.below ≡ marks.old.below }
{
    'marks: while let Some(mark) = marks.pop() {
        match mark {
            Mark::Term(down) => return Ok(Some(down)),
            Mark::Piece(told) => here.absorb(told)?,
        }
    }
    Ok(None)
}

// Enters a symbol: it is one node more, and its children are open.
fn enter_symbol<D: Drop>(
    marks: &mut Layers<Mark<D>>,
    here: &mut Here,
    symbol: usize,
    fell: Fell<D>,
    kept: bool,
) -> Result<(), AllocError>
    requires nodes { here.old.nodes + 1 < 2 ^ 64 }
    requires hits { here.old.hits + 1 < 2 ^ 64 }
    ensures telling { OnOk result ((lists : Listed) (s : Stretch) → lists.kept ≡ kept → IsTelling lists here.old s → IsTelling lists here.new (beside s (one fell.hit symbol))) }
    ensures marks { OnOk result (marks.new.top ≡ Mark.Term fell.left ∷ Mark.Term fell.right ∷ marks.old.top) }
    ensures below { OnOk result (marks.new.below ≡ marks.old.below) }
{
    here.add(fell.hit, symbol, kept)?;
    marks.push(Mark::Term(fell.right))?;
    marks.push(Mark::Term(fell.left))?;
    Ok(())
}

// Enters a call: its first stretch is here, and its arguments are open with the other stretches behind them.
pub(crate) fn enter_call<D: RunState>(
    marks: &mut Layers<Mark<D>>,
    here: &mut Here,
    handed: &[Handed<D>],
    last: Told,
) -> Result<(), AllocError>
    requires room { (told : Told) → told ≡ get_or (tolds (outcome handed.now last)) 0 told → HasRoom here.old told }
    ensures entered { (lists : Listed) (s : Stretch) (ms : List (Open D)) (ss : List Stretch) → IsTelling lists here.old s → AreOpen lists marks.old.top ms → AreTold lists (tolds (outcome handed.now last)) ss → OnOk result (IsTelling lists here.new (beside s (get_or ss 0 nothing)) × AreOpen lists marks.new.top (woven_marks (downs_handed handed.now) (drop 1 ss) ++ ms)) }
    ensures below { OnOk result (marks.new.below ≡ marks.old.below) }
{
    let mut behind = last;
    let mut left = handed.len();
    'arguments: while left > 0 {
        left -= 1;
        let parameter = &handed[left];
        marks.push(Mark::Piece(behind))?;
        marks.push(Mark::Term(parameter.down.copy()?))?;
        behind = parameter.before;
    }
    here.absorb(behind)
}
