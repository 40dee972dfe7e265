// States of terms on a stack, that of the last term at the bottom.
ghost use Rattle.std.specs.Prelude.{◌≡◌, ◌++◌, ◌<◌, ◌≤◌, ◌∷◌, true, get_or, take, drop, reverse, vec_len, length, IfOk};
ghost use Rattle.slt_grammar.specs.Grammars.{rank_at};
ghost use Rattle.slt_grammar.specs.Keyed.{rules_of};
ghost use Rattle.rule_runs.specs.Frames.{Asks};

use crate::memo::Pair;
use slt_grammar::{Grammar, Label, RunState};
use std::alloc::{AllocError, Global};

// One of the states again.
pub(crate) fn copy_at<S: RunState>(states: &[S], at: usize) -> Result<S, AllocError>
    requires { at < length states.now }
    ensures { IfOk result (λ state. state ≡ get_or states.now at state) }
{
    states[at].copy()
}

// The two topmost states, which are taken off, the topmost first.
pub(crate) fn pop_two<S: Drop>(stack: &mut Vec<S>) -> (S, S)
    requires { 2 ≤ vec_len stack.old }
    ensures { result.0 ∷ result.1 ∷ reverse stack.new.items ≡ reverse stack.old.items }
{
    let (Some(top), Some(next)) = (stack.pop(), stack.pop()) else {
        unreachable!()
    };
    (top, next)
}

// Takes the topmost states off, the topmost first.
fn pop_many<S: Drop>(alloc: Global, stack: &mut Vec<S>, count: usize) -> Result<Vec<S>, AllocError>
    requires { count ≤ vec_len stack.old }
    ensures taken { IfOk result (λ taken. taken.items ++ reverse stack.new.items ≡ reverse stack.old.items) }
    ensures count { IfOk result (λ taken. vec_len taken ≡ count) }
{
    let mut taken = Vec::with_capacity(alloc, count)?;
    for _i in 0..count {
        let Some(state) = stack.pop() else {
            unreachable!()
        };
        taken.push(state)?;
    }
    Ok(taken)
}

// Whether these are the topmost states, so many, the topmost first.
pub(crate) fn are_topmost<S: RunState>(states: &[S], count: usize, stack: &Vec<S>) -> bool
    requires { count ≤ vec_len stack.now }
    ensures { result ≡ true → states.now ≡ take count (reverse stack.now.items) }
{
    if states.len() != count {
        return false;
    }
    'states: for i in 0..count {
        if states[i] != stack[stack.len() - 1 - i] {
            return false;
        }
    }
    true
}

// Takes the topmost states off.
pub(crate) fn drop_top<S: Drop>(stack: &mut Vec<S>, count: usize)
    requires { count ≤ vec_len stack.old }
    ensures { reverse stack.new.items ≡ drop count (reverse stack.old.items) }
{
    stack.truncate(stack.len() - count);
}

// The pair of a call over the topmost states, which are taken off.
pub(crate) fn pop_pair<S: Drop>(
    alloc: Global,
    grammar: &Grammar,
    rule: usize,
    stack: &mut Vec<S>,
) -> Result<Pair<S>, AllocError>
    requires there { rule < length grammar.now.rules }
    requires enough { rank_at (rules_of grammar.now.rules) rule ≤ vec_len stack.old }
    ensures { IfOk result (λ pair. Asks (rules_of grammar.now.rules) (Label.Call rule) (reverse stack.old.items) pair (reverse stack.new.items)) }
{
    let states = pop_many(alloc, stack, grammar.rank(rule))?;
    Ok(Pair { rule, states })
}
