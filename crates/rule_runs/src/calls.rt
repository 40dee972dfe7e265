// Calls that a run over a body comes to.
ghost use Rattle.std.specs.Prelude.{◌≡◌, ◌≢◌, ◌<◌, ◌≤◌, ℕ, length, reverse, vec_len, IfOk, All};
ghost use Rattle.slt_grammar.specs.Grammars.{rank_at};
ghost use Rattle.slt_grammar.specs.Keyed.{rules_of};
ghost use Rattle.rule_runs.specs.Entries.{key_of};
ghost use Rattle.rule_runs.specs.Frames.{Asks, IsKnownCall};

use crate::memo::{Memo, Pair};
use crate::stack::{drop_top, pop_pair};
use slt_grammar::{Grammar, Label, RunState};
use std::alloc::{AllocError, Global};

// What is known of a call: the place and the state of its pair, or else the pair.
#[derive(Drop)]
pub(crate) enum Called<S: Drop> {
    Known(usize, S),
    Unknown(Pair<S>),
}

// Takes the states of the arguments of a call off the stack, where they are topmost, and looks for its pair.
pub(crate) fn take_call<S: RunState>(
    alloc: Global,
    grammar: &Grammar,
    known: &Memo<S>,
    rule: usize,
    stack: &mut Vec<S>,
) -> Result<Called<S>, AllocError>
    requires there { rule < length grammar.now.rules }
    requires enough { rank_at (rules_of grammar.now.rules) rule ≤ vec_len stack.old }
    ensures known { IfOk result (λ called. (place : ℕ) (state : S) → called ≡ Called.Known place state → IsKnownCall (rules_of grammar.now.rules) known.now rule (reverse stack.old.items) place state (reverse stack.new.items)) }
    ensures asks { IfOk result (λ called. (pair : Pair S) → called ≡ Called.Unknown pair → Asks (rules_of grammar.now.rules) (Label.Call rule) (reverse stack.old.items) pair (reverse stack.new.items)) }
    ensures new { IfOk result (λ called. (pair : Pair S) → called ≡ Called.Unknown pair → All (λ e. e.0 ≢ key_of pair) known.now) }
{
    let rank = grammar.rank(rule);
    if let Some((place, found)) = known.find_topmost(rule, rank, stack) {
        let state = found.copy()?;
        drop_top(stack, rank);
        return Ok(Called::Known(place, state));
    }
    let pair = pop_pair(alloc, grammar, rule, stack)?;
    match known.find(&pair) {
        Some((place, found)) => Ok(Called::Known(place, found.copy()?)),
        None => Ok(Called::Unknown(pair)),
    }
}
