// The rules that are being made, and the bodies that are open meanwhile.
ghost use Rattle.std.specs.Prelude.{◌≡◌, ◌≢◌, ◌+◌, ◌*◌, ◌<◌, ◌≤◌, ◌++◌, ◌∷◌, ℕ, List, [], true, false, length, reverse, IfOk, OnOk, All};
ghost use Rattle.slt_grammar.specs.Grammars.{body_at, IsSwept};
ghost use Rattle.slt_grammar.specs.Keyed.{rules_of};
ghost use Rattle.rule_runs.specs.Notes.{AreKept, HasBody, unread};
ghost use Rattle.rule_runs.specs.Reached.{RuleStates, Falls};
ghost use Rattle.rule_runs.specs.Risen.{IsRun, keys, pair_at};
ghost use Rattle.bulk_rewrite.specs.Frames.{Standing};
ghost use Rattle.bulk_rewrite.specs.Making.{AreMadeOnce};
ghost use Rattle.bulk_rewrite.specs.Rewriting.{kept_count};
ghost use Rattle.bulk_rewrite.specs.UnderWay.{IsUnderWay, IsWhole, making_cost, outer_cost};

use crate::frame::{Frame, advance, begin, count_kept, enter_call};
use crate::places::Places;
use crate::rewriter::Rewriter;
use read_steps::Steps;
use rule_runs::{Reading, RiseTable, Spot};
use slt_grammar::{Grammar, Label, RuleList, RunState};
use std::alloc::{AllocError, Global};
use std::mem::replace;
use std::sync::ledger::Ledger;

// The rules so far, and the bodies that are open.
#[derive(Drop)]
pub(crate) struct Making<'a, S: RunState, D: RunState> {
    pub(crate) bodies: Reading<'a, S>,
    // What the spots that have their rules hand on.
    pub(crate) known: Places<D>,
    pub(crate) rules: RuleList,
    // The innermost body, and those that wait for it, the innermost last.
    pub(crate) frame: Frame<D>,
    pub(crate) frames: Vec<Frame<D>>,
}

// One step: the innermost body goes on to a call without a rule, whose body is begun, or to its end. It answers false where all is
// read.
pub(crate) fn turn<A: Rewriter, L: Ledger>(
    alloc: Global,
    automaton: &A,
    grammar: &Grammar,
    risen: &RiseTable<A::State>,
    making: &mut Making<'_, A::State, A::Down>,
    steps: &mut Steps<L>,
) -> Result<bool, AllocError>
    requires run { IsRun (A.algebra automaton.now) (rules_of grammar.now.rules) risen.now.known }
    requires way { IsUnderWay (A.algebra automaton.now) (A.downward automaton.now) (rules_of grammar.now.rules) (A.rewriting automaton.now) (keys risen.now.known) making.old }
    ensures way { IfOk result (λ goes. goes ≡ true → IsUnderWay (A.algebra automaton.now) (A.downward automaton.now) (rules_of grammar.now.rules) (A.rewriting automaton.now) (keys risen.now.known) making.new) }
    ensures less { IfOk result (λ goes. goes ≡ true → making_cost (rules_of grammar.now.rules) (keys risen.now.known) making.new < making_cost (rules_of grammar.now.rules) (keys risen.now.known) making.old) }
    ensures whole { IfOk result (λ goes. goes ≡ false → IsWhole (A.algebra automaton.now) (A.downward automaton.now) (rules_of grammar.now.rules) (A.rewriting automaton.now) (keys risen.now.known) making.new) }
    ensures last { IfOk result (λ goes. goes ≡ false → making.new.frames.items ≡ []) }
    ensures counted { steps.old ≤ steps.new }
    ensures reads { steps.new ≤ steps.old + 2 * unread (rules_of grammar.now.rules) (keys risen.now.known) making.old.bodies }
    ensures once { OnOk result (steps.new + 2 * unread (rules_of grammar.now.rules) (keys risen.now.known) making.new.bodies ≤ steps.old + 2 * unread (rules_of grammar.now.rules) (keys risen.now.known) making.old.bodies) }
{
    let Some(notes) = making.bodies.notes(making.frame.spot.pair) else {
        unreachable!()
    };
    match advance(
        automaton,
        grammar,
        risen,
        notes,
        &making.known,
        &mut making.frame,
    )? {
        Some(spot) => {
            open(alloc, automaton, grammar, risen, making, spot, steps)?;
            Ok(true)
        }
        None => close(automaton, grammar, risen, making),
    }
}

// Begins the body of a spot, for which the innermost one waits.
fn open<A: Rewriter, L: Ledger>(
    alloc: Global,
    automaton: &A,
    grammar: &Grammar,
    risen: &RiseTable<A::State>,
    making: &mut Making<'_, A::State, A::Down>,
    spot: Spot<A::Down>,
    steps: &mut Steps<L>,
) -> Result<(), AllocError>
    requires run { IsRun (A.algebra automaton.now) (rules_of grammar.now.rules) risen.now.known }
    requires there { spot.pair < length (keys risen.now.known) }
    requires here { (A.rewriting automaton.now).lost spot.down ≡ false }
    requires met { Falls A.State A.Down (A.algebra automaton.now) (A.downward automaton.now) (rules_of grammar.now.rules) (pair_at (keys risen.now.known) spot.pair).0 (pair_at (keys risen.now.known) spot.pair).1 spot.down }
    requires kept { AreKept (A.algebra automaton.now) (rules_of grammar.now.rules) (keys risen.now.known) making.old.bodies }
    ensures kept { AreKept (A.algebra automaton.now) (rules_of grammar.now.rules) (keys risen.now.known) making.new.bodies }
    ensures stays { (i : ℕ) → HasBody making.old.bodies i → HasBody making.new.bodies i }
    ensures read { OnOk result (HasBody making.new.bodies spot.pair) }
    ensures known { making.new.known ≡ making.old.known }
    ensures rules { making.new.rules ≡ making.old.rules }
    ensures frames { OnOk result (making.new.frames.items ≡ making.old.frames.items ++ making.old.frame ∷ []) }
    ensures spot { OnOk result (making.new.frame.spot ≡ spot) }
    ensures stands { OnOk result ((ts : List (RuleStates A.State × A.Down)) → Standing (A.algebra automaton.now) (A.downward automaton.now) (rules_of grammar.now.rules) (A.rewriting automaton.now) (keys risen.now.known) ts making.new.frame) }
    ensures cost { OnOk result (making.new.frame.left ≡ length (body_at (rules_of grammar.now.rules) (pair_at (keys risen.now.known) spot.pair).0)) }
    ensures counted { steps.old ≤ steps.new }
    ensures reads { steps.new ≤ steps.old + 2 * unread (rules_of grammar.now.rules) (keys risen.now.known) making.old.bodies }
    ensures once { OnOk result (steps.new + 2 * unread (rules_of grammar.now.rules) (keys risen.now.known) making.new.bodies ≤ steps.old + 2 * unread (rules_of grammar.now.rules) (keys risen.now.known) making.old.bodies) }
{
    let inner = begin(
        alloc,
        automaton,
        grammar,
        risen,
        &mut making.bodies,
        spot,
        steps,
    )?;
    let waits = replace(&mut making.frame, inner);
    making.frames.push(waits)?;
    Ok(())
}

// Makes the rule of the innermost body, which is whole, if another waits for it.
fn close<A: Rewriter>(
    automaton: &A,
    grammar: &Grammar,
    risen: &RiseTable<A::State>,
    making: &mut Making<'_, A::State, A::Down>,
) -> Result<bool, AllocError>
    requires run { IsRun (A.algebra automaton.now) (rules_of grammar.now.rules) risen.now.known }
    requires whole { IsWhole (A.algebra automaton.now) (A.downward automaton.now) (rules_of grammar.now.rules) (A.rewriting automaton.now) (keys risen.now.known) making.old }
    ensures way { IfOk result (λ goes. goes ≡ true → IsUnderWay (A.algebra automaton.now) (A.downward automaton.now) (rules_of grammar.now.rules) (A.rewriting automaton.now) (keys risen.now.known) making.new) }
    ensures less { IfOk result (λ goes. goes ≡ true → making_cost (rules_of grammar.now.rules) (keys risen.now.known) making.new ≤ outer_cost (rules_of grammar.now.rules) (keys risen.now.known) making.old) }
    ensures whole { IfOk result (λ goes. goes ≡ false → IsWhole (A.algebra automaton.now) (A.downward automaton.now) (rules_of grammar.now.rules) (A.rewriting automaton.now) (keys risen.now.known) making.new) }
    ensures last { IfOk result (λ goes. goes ≡ false → making.new.frames.items ≡ []) }
    ensures bodies { making.new.bodies ≡ making.old.bodies }
{
    // The call tells that the rules are a grammar.
    let _rules = grammar.rules();
    let Some(below) = making.frames.pop() else {
        return Ok(false);
    };
    let done = replace(&mut making.frame, below);
    hand_back(automaton, making, done)?;
    Ok(true)
}

// Makes the rule of a body that is whole, and calls it in the innermost one.
fn hand_back<A: Rewriter>(
    automaton: &A,
    making: &mut Making<'_, A::State, A::Down>,
    done: Frame<A::Down>,
) -> Result<(), AllocError>
    requires new { All (λ e. e.0 ≢ done.spot) making.old.known }
    ensures bodies { making.new.bodies ≡ making.old.bodies }
    ensures frames { making.new.frames ≡ making.old.frames }
    ensures rules { OnOk result (making.new.rules ≡ making.old.rules ++ record { rank = kept_count (A.rewriting automaton.now) done.handed.items; body = done.body } ∷ []) }
    ensures known { OnOk result (making.new.known ≡ making.old.known ++ (done.spot, done.handed.items) ∷ []) }
    ensures spot { making.new.frame.spot ≡ making.old.frame.spot }
    ensures left { making.new.frame.left ≡ making.old.frame.left }
    ensures handed { making.new.frame.handed ≡ making.old.frame.handed }
    ensures body { OnOk result (making.new.frame.body ≡ making.old.frame.body ++ Label.Call (length making.old.rules) ∷ []) }
    ensures opened { OnOk result (reverse making.new.frame.opened.items ≡ done.handed.items ++ reverse making.old.frame.opened.items) }
{
    let place = making.rules.as_slice().len();
    making
        .rules
        .push(count_kept(automaton, &done.handed), done.body)?;
    enter_call(&mut making.frame, place, &done.handed)?;
    making.known.note(done.spot, done.handed)
}

// The rules, with the last one.
pub(crate) fn finish<A: Rewriter>(
    automaton: &A,
    grammar: &Grammar,
    risen: &RiseTable<A::State>,
    making: Making<'_, A::State, A::Down>,
) -> Result<RuleList, AllocError>
    requires run { IsRun (A.algebra automaton.now) (rules_of grammar.now.rules) risen.now.known }
    requires whole { IsWhole (A.algebra automaton.now) (A.downward automaton.now) (rules_of grammar.now.rules) (A.rewriting automaton.now) (keys risen.now.known) making }
    requires last { making.frames.items ≡ [] }
    ensures made { IfOk result (λ new. AreMadeOnce (A.algebra automaton.now) (A.downward automaton.now) (rules_of grammar.now.rules) (A.rewriting automaton.now) new) }
    ensures swept { IfOk result IsSwept }
{
    let mut rules = making.rules;
    let frame = making.frame;
    rules.push(count_kept(automaton, &frame.handed), frame.body)?;
    Ok(rules)
}
