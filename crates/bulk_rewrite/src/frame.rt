// Bodies that are rewritten, node by node from their root.
ghost use Rattle.std.specs.Prelude.{◌≡◌, ◌≢◌, ◌+◌, ◌*◌, ◌<◌, ◌≤◌, ◌++◌, ◌∷◌, ℕ, List, [], false, Some, None, length, map, reverse, replicate, IfOk, OnOk, All};
ghost use Rattle.slt_grammar.specs.Grammars.{body_at};
ghost use Rattle.slt_grammar.specs.Keyed.{rules_of};
ghost use Rattle.rule_runs.specs.Notes.{AreNotes, AreKept, HasBody, unread};
ghost use Rattle.rule_runs.specs.Reached.{RuleStates, Falls};
ghost use Rattle.rule_runs.specs.Risen.{IsRun, keys, pair_at};
ghost use Rattle.bulk_rewrite.specs.Frames.{kept_label, symbol_label, triples, HasHanded, Standing, Asks};
ghost use Rattle.bulk_rewrite.specs.Making.{AreNamed, making};
ghost use Rattle.bulk_rewrite.specs.Rewriting.{kept_count};

use crate::places::Places;
use crate::rewriter::Rewriter;
use read_steps::Steps;
use rule_runs::{NoteSlice, Reading, RiseTable, Seen, Spot, read};
use slt_grammar::{Body, Falling, Grammar, Label, RunState};
use std::alloc::{AllocError, Global};
use std::sync::ledger::Ledger;

// A body that is being rewritten.
#[derive(Drop)]
pub(crate) struct Frame<D: Drop> {
    pub(crate) spot: Spot<D>,
    // How many of the pair's notes are left. They stand from the last node to the first, so that the next one is the last of these.
    pub(crate) left: usize,
    // The down states of the terms that are open, the next one last.
    pub(crate) opened: Vec<D>,
    // The new body so far, and the down states of the parameters that were met.
    pub(crate) body: Body,
    pub(crate) handed: Vec<D>,
}

// Begins a body, which is read where that wasn't done yet.
pub(crate) fn begin<A: Rewriter, L: Ledger>(
    alloc: Global,
    automaton: &A,
    grammar: &Grammar,
    risen: &RiseTable<A::State>,
    bodies: &mut Reading<'_, A::State>,
    spot: Spot<A::Down>,
    steps: &mut Steps<L>,
) -> Result<Frame<A::Down>, AllocError>
    requires run { IsRun (A.algebra automaton.now) (rules_of grammar.now.rules) risen.now.known }
    requires there { spot.pair < length (keys risen.now.known) }
    requires here { (A.rewriting automaton.now).lost spot.down ≡ false }
    requires met { Falls A.State A.Down (A.algebra automaton.now) (A.downward automaton.now) (rules_of grammar.now.rules) (pair_at (keys risen.now.known) spot.pair).0 (pair_at (keys risen.now.known) spot.pair).1 spot.down }
    requires kept { AreKept (A.algebra automaton.now) (rules_of grammar.now.rules) (keys risen.now.known) bodies.old }
    ensures kept { AreKept (A.algebra automaton.now) (rules_of grammar.now.rules) (keys risen.now.known) bodies.new }
    ensures stays { (i : ℕ) → HasBody bodies.old i → HasBody bodies.new i }
    ensures read { OnOk result (HasBody bodies.new spot.pair) }
    ensures spot { IfOk result (λ frame. frame.spot ≡ spot) }
    ensures empty { IfOk result (λ frame. frame.body ≡ []) }
    ensures stands { IfOk result (λ frame. (ts : List (RuleStates A.State × A.Down)) → Standing (A.algebra automaton.now) (A.downward automaton.now) (rules_of grammar.now.rules) (A.rewriting automaton.now) (keys risen.now.known) ts frame) }
    ensures cost { IfOk result (λ frame. frame.left ≡ length (body_at (rules_of grammar.now.rules) (pair_at (keys risen.now.known) spot.pair).0)) }
    ensures counted { steps.old ≤ steps.new }
    ensures reads { steps.new ≤ steps.old + 2 * unread (rules_of grammar.now.rules) (keys risen.now.known) bodies.old }
    ensures once { OnOk result (steps.new + 2 * unread (rules_of grammar.now.rules) (keys risen.now.known) bodies.new ≤ steps.old + 2 * unread (rules_of grammar.now.rules) (keys risen.now.known) bodies.old) }
{
    // The call tells that the rules are a grammar.
    let _rules = grammar.rules();
    let left = read(alloc, automaton, grammar, risen, bodies, spot.pair, steps)?;
    let mut opened = Vec::new(alloc);
    opened.push(spot.down.copy()?)?;
    Ok(Frame {
        spot,
        left,
        opened,
        body: Body::new(alloc),
        handed: Vec::new(alloc),
    })
}

// Rewrites a body on to its end, or to a call that has no rule yet.
pub(crate) fn advance<A: Rewriter>(
    automaton: &A,
    grammar: &Grammar,
    risen: &RiseTable<A::State>,
    notes: NoteSlice<'_, A::State>,
    known: &Places<A::Down>,
    frame: &mut Frame<A::Down>,
) -> Result<Option<Spot<A::Down>>, AllocError>
    requires run { IsRun (A.algebra automaton.now) (rules_of grammar.now.rules) risen.now.known }
    requires noted { AreNotes (A.algebra automaton.now) (rules_of grammar.now.rules) (keys risen.now.known) (pair_at (keys risen.now.known) frame.old.spot.pair).1 (body_at (rules_of grammar.now.rules) (pair_at (keys risen.now.known) frame.old.spot.pair).0) (reverse notes) }
    requires known { All (λ e. HasHanded (A.algebra automaton.now) (A.downward automaton.now) (rules_of grammar.now.rules) (A.rewriting automaton.now) (keys risen.now.known) e.0 e.1) known.now }
    requires there { frame.old.spot.pair < length (keys risen.now.known) }
    requires stands { Standing (A.algebra automaton.now) (A.downward automaton.now) (rules_of grammar.now.rules) (A.rewriting automaton.now) (keys risen.now.known) (triples (keys risen.now.known) known.now) frame.old }
    ensures same { frame.new.spot ≡ frame.old.spot }
    ensures hands { IfOk result (λ next. next ≡ None → HasHanded (A.algebra automaton.now) (A.downward automaton.now) (rules_of grammar.now.rules) (A.rewriting automaton.now) (keys risen.now.known) frame.new.spot frame.new.handed.items) }
    ensures named { IfOk result (λ next. next ≡ None → AreNamed (triples (keys risen.now.known) known.now) (making (A.algebra automaton.now) (A.downward automaton.now) (rules_of grammar.now.rules) (A.rewriting automaton.now) (pair_at (keys risen.now.known) frame.new.spot.pair).1 (frame.new.spot.down ∷ []) (body_at (rules_of grammar.now.rules) (pair_at (keys risen.now.known) frame.new.spot.pair).0)) frame.new.body) }
    ensures waits { IfOk result (λ next. (spot : Spot A.Down) → next ≡ Some spot → Asks (A.algebra automaton.now) (A.downward automaton.now) (rules_of grammar.now.rules) (A.rewriting automaton.now) (keys risen.now.known) (triples (keys risen.now.known) known.now) frame.old spot frame.new) }
    ensures new { IfOk result (λ next. (spot : Spot A.Down) → next ≡ Some spot → All (λ e. e.0 ≢ spot) known.now) }
{
    // The call tells that the rules are a grammar.
    let _rules = grammar.rules();
    'notes: while frame.left > 0 {
        frame.left -= 1;
        let note = notes.at(frame.left);
        let Some(down) = frame.opened.pop() else {
            unreachable!()
        };
        let lost = automaton.is_lost(&down);
        match note {
            Seen::Bottom => keep(&mut frame.body, lost, Label::Bottom)?,
            Seen::Param => {
                keep(&mut frame.body, lost, Label::Param)?;
                frame.handed.push(down)?;
            }
            Seen::Symbol(symbol, kids, rest) => {
                let fell = automaton.step(symbol, &down, kids, rest)?;
                keep_symbol(&mut frame.body, automaton.becomes(symbol, &down, fell.hit))?;
                frame.opened.push(fell.right)?;
                frame.opened.push(fell.left)?;
            }
            Seen::Call(pair) => {
                if lost {
                    let rank = grammar.rank(risen.rule_at(pair));
                    open_lost(&mut frame.opened, &down, rank)?;
                } else {
                    let spot = Spot { pair, down };
                    match known.find(&spot) {
                        Some((place, handed)) => enter_call(frame, place, handed)?,
                        None => return Ok(Some(spot)),
                    }
                }
            }
        }
    }
    Ok(None)
}

// Puts a label behind a body, unless it is lost.
fn keep(body: &mut Body, lost: bool, label: Label) -> Result<(), AllocError>
    ensures { OnOk result (body.new ≡ body.old ++ kept_label lost label) }
{
    if lost { Ok(()) } else { body.push(label) }
}

// Puts a symbol behind a body, if there is one.
fn keep_symbol(body: &mut Body, symbol: Option<usize>) -> Result<(), AllocError>
    ensures { OnOk result (body.new ≡ body.old ++ symbol_label symbol) }
{
    match symbol {
        Some(symbol) => body.push(Label::Symbol(symbol)),
        None => Ok(()),
    }
}

// Opens so many terms that are lost.
fn open_lost<D: RunState>(opened: &mut Vec<D>, down: &D, count: usize) -> Result<(), AllocError>
    ensures { OnOk result (reverse opened.new.items ≡ replicate count down.now ++ reverse opened.old.items) }
{
    'terms: for _i in 0..count {
        opened.push(down.copy()?)?;
    }
    Ok(())
}

// Calls a rule, and opens its arguments.
pub(crate) fn enter_call<D: RunState>(
    frame: &mut Frame<D>,
    place: usize,
    handed: &[D],
) -> Result<(), AllocError>
    ensures spot { frame.new.spot ≡ frame.old.spot }
    ensures left { frame.new.left ≡ frame.old.left }
    ensures handed { frame.new.handed ≡ frame.old.handed }
    ensures body { OnOk result (frame.new.body ≡ frame.old.body ++ Label.Call place ∷ []) }
    ensures opened { OnOk result (reverse frame.new.opened.items ≡ handed.now ++ reverse frame.old.opened.items) }
{
    frame.body.push(Label::Call(place))?;
    open_arguments(&mut frame.opened, handed)
}

// Opens the arguments of a call.
fn open_arguments<D: RunState>(opened: &mut Vec<D>, handed: &[D]) -> Result<(), AllocError>
    ensures { OnOk result (reverse opened.new.items ≡ handed.now ++ reverse opened.old.items) }
{
    let mut left = handed.len();
    'arguments: while left > 0 {
        left -= 1;
        opened.push(handed[left].copy()?)?;
    }
    Ok(())
}

// How many are kept.
pub(crate) fn count_kept<A: Rewriter>(automaton: &A, downs: &[A::Down]) -> usize
    ensures { result ≡ kept_count (A.rewriting automaton.now) downs.now }
{
    let mut count = 0;
    'downs: for down in downs {
        if !automaton.is_lost(down) {
            count += 1;
        }
    }
    count
}
