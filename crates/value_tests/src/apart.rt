// Tests of the rules that are made of spots: those of marked instances are apart from the others.
ghost use Rattle.std.specs.Prelude.{◌≡◌, ◌⊎◌, ◌+◌, ◌-◌, ◌<◌, ◌≤◌, ℕ, true, None, length, IfSome};
ghost use Rattle.slt_grammar.specs.Grammars.{body_at, whole};
ghost use Rattle.slt_grammar.specs.Keyed.{rules_of};
ghost use Rattle.value_tests.specs.Assembled.{spots_at, plain_nodes, RisesTo, IsCalledOnce};
ghost use Rattle.value_tests.specs.Isolated.{sum_below};
ghost use Rattle.value_tests.specs.Spots.{spot_of};

use crate::spots::{Instance, Spots};
use slt_grammar::Grammar;

// Whether the new rules before the last that are without marks are of different rules, each of a later one than those before it, and none
// of the start. So they have no more nodes together than the grammar.
pub(crate) fn are_rising(spots: &Spots, origins: &[usize], grammar: &Grammar) -> bool
    requires { 0 < length origins.now }
    ensures { result ≡ true → sum_below (length origins.now - 1) (plain_nodes (rules_of grammar.now.rules) (spots_at spots.now origins.now)) + length (body_at (rules_of grammar.now.rules) (length (rules_of grammar.now.rules) - 1)) ≤ whole (rules_of grammar.now.rules) }
{
    let start = grammar.rules() - 1;
    let mut next = 0;
    'rules: for number in 0..origins.len() - 1 {
        let Some(spot) = spots.get(origins[number]) else {
            return false;
        };
        let Some(after) = rule_after(spot, start, next) else {
            return false;
        };
        next = after;
    }
    true
}

// The rule behind that of a spot without marks, if it is neither before `next` nor the start's; `next` where there are marks.
fn rule_after(spot: &Instance, start: usize, next: usize) -> Option<usize>
    ensures { IfSome result (RisesTo (spot_of spot.now) start next) }
{
    if spot.place.is_some() {
        return Some(next);
    }
    if spot.rule < next || spot.rule >= start {
        return None;
    }
    Some(spot.rule + 1)
}

// Whether each rule of a marked instance is called at one place at most.
pub(crate) fn are_called_once(spots: &Spots, origins: &[usize], grammar: &Grammar) -> bool
    requires { length origins.now ≡ length grammar.now.rules }
    ensures { result ≡ true → (p : ℕ) → p < length origins.now → IsCalledOnce (rules_of grammar.now.rules) (spots_at spots.now origins.now) p }
{
    'rules: for number in 0..origins.len() {
        let Some(spot) = spots.get(origins[number]) else {
            return false;
        };
        if !is_apart(spot, grammar.calls(number)) {
            return false;
        }
    }
    true
}

// Whether a spot that is called so often is without marks or is called once at most.
fn is_apart(spot: &Instance, calls: u64) -> bool
    ensures { result ≡ true → ((spot_of spot.now).down ≡ None) ⊎ (calls ≤ 1) }
{
    spot.place.is_none() || calls <= 1
}
