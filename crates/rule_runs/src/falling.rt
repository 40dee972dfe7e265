// Runs downward: each rule is read once for each list of argument states, and gone through once for each down state that it is met
// with.
ghost use Rattle.std.specs.Prelude.{◌≡◌, ◌≢◌, ◌↔◌, ◌-◌, ◌+◌, ◌*◌, ◌^◌, ◌<◌, ◌≤◌, ◌++◌, ◌∷◌, ℕ, List, [], length, sum_by, slice_get, get_or, drop, Some, All, IfOk, IfSome, IsSome, IsTrue, OnOk};
ghost use Rattle.plain_tree.specs.declared.kind.Kind.{Kind};
ghost use Rattle.segment_counts.specs.Counting.{AreCounts};
ghost use Rattle.slt_grammar.specs.Automata.{IsSpent, hits, nodes_in};
ghost use Rattle.slt_grammar.specs.Grammars.{body_at, value};
ghost use Rattle.slt_grammar.specs.Keyed.{rules_of};
ghost use Rattle.rule_runs.specs.Answering.{HasFallen};
ghost use Rattle.rule_runs.specs.Hits.{numbers, symbols_in};
ghost use Rattle.rule_runs.specs.Reached.{RuleStates, Falls, FallsOnce};
ghost use Rattle.rule_runs.specs.Notes.{AreKept, HasBody, IsRisen, unread};
ghost use Rattle.rule_runs.specs.Risen.{IsRun, keys, pair_at};
ghost use Rattle.rule_runs.specs.Cuts.{Stretch, nothing, beside};
ghost use Rattle.rule_runs.specs.Outcomes.{outcome, downs_handed, tolds};
ghost use Rattle.rule_runs.specs.Tellings.{Listed, HasRoom, IsTelling, AreTold};
ghost use Rattle.rule_runs.specs.Walks.{Open, woven_marks};
ghost use Rattle.rule_runs.specs.Descents.{AreOpen, Standing};

use crate::descent::{Descended, Descent, Mark, begin, descend, enter_call, reuse};
use crate::kept::Reading;
use crate::layers::Layers;
use crate::listing::HitLists;
use crate::rising::RiseTable;
use crate::spent::{Spent, spent_outcome};
use crate::spots::{Handed, Spot, Spots};
use crate::told::{Here, Told};
use read_steps::Steps;
use slt_grammar::{Falling, Grammar, RunState};
use std::alloc::{AllocError, Global};
use std::marker::Model;
use std::mem::replace;
use std::sync::ledger::Ledger;

/// What a run downward has found. It is seen as how many nodes are hit and, where they are listed, which, by rising numbers.
pub struct FallTable {
    pub(crate) lists: HitLists,
    pub(crate) whole: Told,
}

impl Drop for FallTable {
    fn drop(self) {
        let FallTable {
            lists: _lists,
            whole: _whole,
        } = self;
    }
}

impl Model for FallTable {
    ghost use Rattle.rule_runs.specs.Answering.{Fallen, fallen_of, IsAnswered};

    ghost Value = { Fallen };

    ghost view = { λ t. fallen_of t.lists t.whole };

    ghost invariant = { λ t. IsAnswered t.lists t.whole };
}

impl FallTable {
    /// How many nodes are hit.
    pub fn count(&self) -> u64
        ensures count { result ≡ self.now.count }
        ensures listed { IfSome self.now.hits (λ found. result ≡ length found) }
    {
        self.whole.hits
    }
}

/// Runs the automaton downward, over what its run upward found in this grammar: how many nodes are hit of all that the grammar stands
/// for, and where they are to be listed which, with the symbols that they have.
///
/// What the grammar stands for has at most 2^63 - 1 nodes that aren't bottom. Each pair of a rule and states of its arguments that the
/// run meets is read once for all its down states, with at most two steps a node, whatever is answered; where `spent` tells a down state
/// from which nothing is hit, no call at that state is entered. It fails where memory is refused, as it is for lists of more than 2^32
/// notes, spots or lists of hits.
pub fn fall<A: Falling, L: Ledger>(
    alloc: Global,
    grammar: &Grammar,
    automaton: &A,
    risen: &RiseTable<A::State>,
    spent: Option<&Spent<'_, A::Down>>,
    listed: bool,
    steps: &mut Steps<L>,
) -> Result<FallTable, AllocError>
    requires run { IsRisen (A.algebra automaton.now) (rules_of grammar.now.rules) risen.now }
    requires small { nodes_in (value (rules_of grammar.now.rules)) < 2 ^ 63 }
    requires spent { IfSome spent (λ s. IsSpent (A.downward automaton.now) s.now.down) }
    requires counts { IfSome spent (λ s. (names : List (Kind × List ℕ)) × AreCounts names (rules_of grammar.now.rules) s.now.counts.now) }
    ensures count { IfOk result (λ table. table.count ≡ length (hits (A.algebra automaton.now) (A.downward automaton.now) (value (rules_of grammar.now.rules)))) }
    ensures listed { IfOk result (λ table. IsSome table.hits ↔ IsTrue listed) }
    ensures hits { IfOk result (λ table. IfSome table.hits (λ found. numbers found ≡ hits (A.algebra automaton.now) (A.downward automaton.now) (value (rules_of grammar.now.rules)))) }
    ensures symbols { IfOk result (λ table. IfSome table.hits (λ found. All (λ hit. slice_get (symbols_in (value (rules_of grammar.now.rules))) hit.number ≡ Some hit.symbol) found)) }
    ensures steps { (triples : List (RuleStates A.State × A.Down)) × FallsOnce (A.algebra automaton.now) (A.downward automaton.now) (rules_of grammar.now.rules) triples (steps.new - steps.old) }
    ensures reads { steps.new ≤ steps.old + 2 * sum_by (λ k. length (body_at (rules_of grammar.now.rules) k.0)) (keys risen.now.known) }
    ensures counted { steps.old ≤ steps.new }
{
    let pairs = risen.known.len();
    let mut bodies = Reading::new(alloc, &risen.bodies, pairs)?;
    let mut known = Spots::with_room(alloc, pairs)?;
    let mut lists = HitLists::new(alloc, listed);
    let whole = run_down(
        alloc,
        grammar,
        automaton,
        risen,
        spent,
        &mut lists,
        &mut bodies,
        &mut known,
        steps,
    )?;
    Ok(FallTable { lists, whole })
}

// Runs downward from the start: the stretch of the whole, whose hits are among the lists where these are kept.
fn run_down<A: Falling, L: Ledger>(
    alloc: Global,
    grammar: &Grammar,
    automaton: &A,
    risen: &RiseTable<A::State>,
    spent: Option<&Spent<'_, A::Down>>,
    lists: &mut HitLists,
    bodies: &mut Reading<'_, A::State>,
    known: &mut Spots<A::Down>,
    steps: &mut Steps<L>,
) -> Result<Told, AllocError>
    requires run { IsRun (A.algebra automaton.now) (rules_of grammar.now.rules) risen.now.known }
    requires kept { AreKept (A.algebra automaton.now) (rules_of grammar.now.rules) (keys risen.now.known) bodies.old }
    requires small { nodes_in (value (rules_of grammar.now.rules)) < 2 ^ 63 }
    requires spent { IfSome spent (λ s. IsSpent (A.downward automaton.now) s.now.down) }
    requires counts { IfSome spent (λ s. (names : List (Kind × List ℕ)) × AreCounts names (rules_of grammar.now.rules) s.now.counts.now) }
    requires lists { lists.old.lists ≡ [] }
    requires known { known.old ≡ [] }
    ensures fallen { IfOk result (λ whole. HasFallen (A.algebra automaton.now) (A.downward automaton.now) (value (rules_of grammar.now.rules)) lists.new whole) }
    ensures kept { OnOk result (lists.new.kept ≡ lists.old.kept) }
    ensures steps { (triples : List (RuleStates A.State × A.Down)) × FallsOnce (A.algebra automaton.now) (A.downward automaton.now) (rules_of grammar.now.rules) triples (steps.new - steps.old) }
    ensures reads { steps.new ≤ steps.old + 2 * sum_by (λ k. length (body_at (rules_of grammar.now.rules) k.0)) (keys risen.now.known) }
    ensures counted { steps.old ≤ steps.new }
{
    // The call tells that the rules are a grammar.
    let _rules = grammar.rules();
    let mut marks = Layers::new(alloc);
    let mut frames = Vec::new(alloc);
    let mut spare = Vec::new(alloc);
    let start = Spot {
        pair: risen.known.len() - 1,
        down: automaton.start()?,
    };
    let mut frame = begin(
        alloc, automaton, grammar, risen, bodies, &mut marks, start, &mut spare, steps,
    )?;
    run_on(
        alloc,
        grammar,
        automaton,
        risen,
        spent,
        lists,
        bodies,
        known,
        &mut marks,
        &mut frames,
        &mut frame,
        &mut spare,
        steps,
    )
}

// Runs on from the start's body, which is read and not yet gone through, to the stretch of the whole. Of the clauses on steps, `steps`
// counts in what reading that body may have taken, two steps for each of its nodes.
fn run_on<A: Falling, L: Ledger>(
    alloc: Global,
    grammar: &Grammar,
    automaton: &A,
    risen: &RiseTable<A::State>,
    spent: Option<&Spent<'_, A::Down>>,
    lists: &mut HitLists,
    bodies: &mut Reading<'_, A::State>,
    known: &mut Spots<A::Down>,
    marks: &mut Layers<Mark<A::Down>>,
    frames: &mut Vec<Descent<A::Down>>,
    frame: &mut Descent<A::Down>,
    spare: &mut Vec<Handed<A::Down>>,
    steps: &mut Steps<L>,
) -> Result<Told, AllocError>
    requires run { IsRun (A.algebra automaton.now) (rules_of grammar.now.rules) risen.now.known }
    requires kept { AreKept (A.algebra automaton.now) (rules_of grammar.now.rules) (keys risen.now.known) bodies.old }
    requires small { nodes_in (value (rules_of grammar.now.rules)) < 2 ^ 63 }
    requires spent { IfSome spent (λ s. IsSpent (A.downward automaton.now) s.now.down) }
    requires counts { IfSome spent (λ s. (names : List (Kind × List ℕ)) × AreCounts names (rules_of grammar.now.rules) s.now.counts.now) }
    requires lists { lists.old.lists ≡ [] }
    requires known { known.old ≡ [] }
    requires frames { frames.old.items ≡ [] }
    requires start { frame.old.spot ≡ record { pair = length (keys risen.now.known) - 1; down = (A.downward automaton.now).start } }
    requires read { HasBody bodies.old frame.old.spot.pair }
    requires stands { Standing (A.algebra automaton.now) (A.downward automaton.now) (rules_of grammar.now.rules) (keys risen.now.known) lists.old frame.old marks.old.top }
    ensures fallen { IfOk result (λ whole. HasFallen (A.algebra automaton.now) (A.downward automaton.now) (value (rules_of grammar.now.rules)) lists.new whole) }
    ensures kept { OnOk result (lists.new.kept ≡ lists.old.kept) }
    ensures steps { (triples : List (RuleStates A.State × A.Down)) × FallsOnce (A.algebra automaton.now) (A.downward automaton.now) (rules_of grammar.now.rules) triples (2 * length (body_at (rules_of grammar.now.rules) (pair_at (keys risen.now.known) frame.old.spot.pair).0) + (steps.new - steps.old)) }
    ensures reads { steps.new ≤ steps.old + 2 * unread (rules_of grammar.now.rules) (keys risen.now.known) bodies.old }
    ensures counted { steps.old ≤ steps.new }
{
    // The call tells that the rules are a grammar.
    let _rules = grammar.rules();
    'bodies: loop {
        let Some(notes) = bodies.notes(frame.spot.pair) else {
            unreachable!()
        };
        match descend(
            alloc, automaton, grammar, risen, notes, known, lists, marks, frame,
        )? {
            Descended::Waits(spot) => match spent_outcome(
                automaton, grammar, risen, spent, &spot, spare,
            )? {
                Some(last) => pass_by(spot, last, marks, &mut frame.here, spare, known)?,
                None => wait_for(
                    alloc, automaton, grammar, risen, spot, bodies, marks, frames, frame, spare,
                    steps,
                )?,
            },
            Descended::Done(last) => match frames.pop() {
                None => return Ok(last),
                Some(below) => hand_back(below, last, marks, frame, spare, known)?,
            },
        }
    }
}

// Passes by a call whose outcome is known without reading: goes on behind it, and notes the outcome as its spot's. What the spot hands
// on is taken out of its list.
fn pass_by<D: RunState>(
    spot: Spot<D>,
    last: Told,
    marks: &mut Layers<Mark<D>>,
    here: &mut Here,
    handed: &mut Vec<Handed<D>>,
    known: &mut Spots<D>,
) -> Result<(), AllocError>
    requires room { (told : Told) → told ≡ get_or (tolds (outcome handed.old.items last)) 0 told → HasRoom here.old told }
    requires new { All (λ e. e.0 ≢ spot) known.old }
    ensures entered { (lists : Listed) (s : Stretch) (ms : List (Open D)) (ss : List Stretch) → IsTelling lists here.old s → AreOpen lists marks.old.top ms → AreTold lists (tolds (outcome handed.old.items last)) ss → OnOk result (IsTelling lists here.new (beside s (get_or ss 0 nothing)) × AreOpen lists marks.new.top (woven_marks (downs_handed handed.old.items) (drop 1 ss) ++ ms)) }
    ensures below { OnOk result (marks.new.below ≡ marks.old.below) }
    ensures known { OnOk result (known.new ≡ known.old ++ (spot, outcome handed.old.items last) ∷ []) }
{
    enter_call(marks, here, handed, last)?;
    known.note(spot, handed, last)
}

// Sets the body aside that waits for a spot, and begins the spot's own.
fn wait_for<A: Falling, L: Ledger>(
    alloc: Global,
    automaton: &A,
    grammar: &Grammar,
    risen: &RiseTable<A::State>,
    spot: Spot<A::Down>,
    bodies: &mut Reading<'_, A::State>,
    marks: &mut Layers<Mark<A::Down>>,
    frames: &mut Vec<Descent<A::Down>>,
    frame: &mut Descent<A::Down>,
    spare: &mut Vec<Handed<A::Down>>,
    steps: &mut Steps<L>,
) -> Result<(), AllocError>
    requires run { IsRun (A.algebra automaton.now) (rules_of grammar.now.rules) risen.now.known }
    requires there { spot.pair < length (keys risen.now.known) }
    requires met { Falls A.State A.Down (A.algebra automaton.now) (A.downward automaton.now) (rules_of grammar.now.rules) (pair_at (keys risen.now.known) spot.pair).0 (pair_at (keys risen.now.known) spot.pair).1 spot.down }
    requires kept { AreKept (A.algebra automaton.now) (rules_of grammar.now.rules) (keys risen.now.known) bodies.old }
    ensures kept { AreKept (A.algebra automaton.now) (rules_of grammar.now.rules) (keys risen.now.known) bodies.new }
    ensures stays { (i : ℕ) → HasBody bodies.old i → HasBody bodies.new i }
    ensures read { OnOk result (HasBody bodies.new spot.pair) }
    ensures spot { OnOk result (frame.new.spot ≡ spot) }
    ensures stands { (lists : Listed) → OnOk result (Standing (A.algebra automaton.now) (A.downward automaton.now) (rules_of grammar.now.rules) (keys risen.now.known) lists frame.new marks.new.top) }
    ensures aside { OnOk result (frames.new.items ≡ frames.old.items ++ frame.old ∷ []) }
    ensures below { OnOk result (marks.new.below ≡ marks.old.top ∷ marks.old.below) }
    ensures cost { OnOk result (frame.new.left ≡ length (body_at (rules_of grammar.now.rules) (pair_at (keys risen.now.known) spot.pair).0)) }
    ensures steps { steps.new ≤ steps.old + 2 * length (body_at (rules_of grammar.now.rules) (pair_at (keys risen.now.known) spot.pair).0) }
    ensures counted { steps.old ≤ steps.new }
    ensures reads { steps.new ≤ steps.old + 2 * unread (rules_of grammar.now.rules) (keys risen.now.known) bodies.old }
    ensures once { OnOk result (steps.new + 2 * unread (rules_of grammar.now.rules) (keys risen.now.known) bodies.new ≤ steps.old + 2 * unread (rules_of grammar.now.rules) (keys risen.now.known) bodies.old) }
{
    marks.open()?;
    let next = begin(
        alloc, automaton, grammar, risen, bodies, marks, spot, spare, steps,
    )?;
    frames.push(replace(frame, next))?;
    Ok(())
}

// Hands the outcome of a body that is done to the one below, which waits for it and goes on behind its call, and notes it as its spot's.
fn hand_back<D: RunState>(
    below: Descent<D>,
    last: Told,
    marks: &mut Layers<Mark<D>>,
    frame: &mut Descent<D>,
    spare: &mut Vec<Handed<D>>,
    known: &mut Spots<D>,
) -> Result<(), AllocError>
    requires room { (told : Told) → told ≡ get_or (tolds (outcome frame.old.handed.items last)) 0 told → HasRoom below.here told }
    requires new { All (λ e. e.0 ≢ frame.old.spot) known.old }
    ensures spot { OnOk result (frame.new.spot ≡ below.spot) }
    ensures left { OnOk result (frame.new.left ≡ below.left) }
    ensures handed { OnOk result (frame.new.handed.items ≡ below.handed.items) }
    ensures entered { (lists : Listed) (s : Stretch) (ms : List (Open D)) (ss : List Stretch) → IsTelling lists below.here s → AreOpen lists (get_or marks.old.below 0 []) ms → AreTold lists (tolds (outcome frame.old.handed.items last)) ss → OnOk result (IsTelling lists frame.new.here (beside s (get_or ss 0 nothing)) × AreOpen lists marks.new.top (woven_marks (downs_handed frame.old.handed.items) (drop 1 ss) ++ ms)) }
    ensures below { OnOk result (marks.new.below ≡ drop 1 marks.old.below) }
    ensures known { OnOk result (known.new ≡ known.old ++ (frame.old.spot, outcome frame.old.handed.items last) ∷ []) }
{
    let mut done = replace(frame, below);
    marks.close();
    enter_call(marks, &mut frame.here, &done.handed, last)?;
    known.note(done.spot, &mut done.handed, last)?;
    // Of many bodies within one another each can use the list of the one before.
    reuse(&mut frame.handed, &mut done.handed);
    *spare = done.handed;
    Ok(())
}
