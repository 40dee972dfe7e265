// What is wrong with a list of rules.
ghost use Rattle.std.specs.Prelude.{◌≡◌, ◌≢◌, ◌↔◌, ◌<◌, ◌≤◌, ℕ, length, get_or, IsTrue, IfNone, IfSome, IfOk, IfErr, OnOk};
ghost use Rattle.slt_grammar.specs.Algebras.{ranks_of};
ghost use Rattle.slt_grammar.specs.Bodies.{CallsBelow};
ghost use Rattle.slt_grammar.specs.Grammars.{body_at, IsShapedAt, IsLawfulAt, IsGrammar, IsSwept};
ghost use Rattle.slt_grammar.specs.Faults.{Shows};
ghost use Rattle.slt_grammar.specs.Keyed.{rules_of};

use crate::bodies::{body_of, calls_earlier, count_params, is_one_term, rank_of};
use crate::counting::{count_calls, first_unused};
use crate::grammar::Grammar;
use crate::rules::{Rule, RuleList};
use std::alloc::Global;
use thiserror::Error;

/// Why a list of rules is no swept grammar, with the first rule that shows it, from 0.
#[derive(Clone, Copy, Debug, PartialEq, Eq, Error)]
pub enum GrammarError {
    /// The labels aren't exactly one term, the rank passes 8, or the last rule's rank isn't 0; rule 0 where there is none.
    #[error("rule {rule} is not one term, or its rank is not allowed")]
    Rank { rule: usize },
    /// The parameters don't number the rank.
    #[error("rule {rule} has another number of parameters than its rank")]
    Linear { rule: usize },
    /// A call names a rule that isn't earlier.
    #[error("rule {rule} calls a rule that is not earlier")]
    Order { rule: usize },
    /// A rule but the last that isn't called.
    #[error("rule {rule} is never called")]
    Unused { rule: usize },
    /// Memory was refused, or there are more than 2^32 nodes.
    #[error("there is no memory for the grammar")]
    Memory,
}

/// The grammar of these rules, if they are one and every rule but the last is called.
///
/// The rules are examined in order, in each the calls first, then the shape of the body and the rank, then the number of
/// parameters; after all of them come the rules that are not called. The error is the first fault. `Memory` comes where memory is
/// refused, and where there are more than 2^32 nodes; it hides no fault.
pub fn check(alloc: Global, rules: RuleList) -> Result<Grammar, GrammarError>
    ensures rules { IfOk result (λ g. rules_of g.rules ≡ rules) }
    ensures grammar { OnOk result (IsGrammar rules) }
    ensures swept { OnOk result (IsSwept rules) }
    ensures fault { IfErr result (Shows rules) }
    ensures memory { result ≡ Err GrammarError.Memory → IsGrammar rules }
    ensures memory_swept { result ≡ Err GrammarError.Memory → IsSwept rules }
{
    let RuleList {
        rules,
        mut calls,
        labels,
    } = rules;
    let rules = rules.as_slice();
    if let Some(fault) = first_fault(rules) {
        return Err(fault);
    }
    let calls = &mut calls.as_mut_slice()[..rules.len()];
    count_calls(calls, rules);
    if let Some(rule) = first_unused(calls) {
        return Err(GrammarError::Unused { rule });
    }
    Grammar::build(alloc, rules, labels, calls).map_err(|_| GrammarError::Memory)
}

// The first fault of a list of rules, but for rules that are not called.
pub(crate) fn first_fault(rules: &[Rule]) -> Option<GrammarError>
    ensures none { IfNone result (IsGrammar rules.now) }
    ensures some { IfSome result (Shows rules.now) }
    ensures fault { IfSome result (λ e. e ≢ GrammarError.Memory) }
{
    if rules.is_empty() {
        return Some(GrammarError::Rank { rule: 0 });
    }
    for rule in 0..rules.len() {
        if let Some(fault) = fault_at(rules, rule) {
            return Some(fault);
        }
    }
    None
}

// The first fault of a rule.
fn fault_at(rules: &[Rule], rule: usize) -> Option<GrammarError>
    requires there { rule < length rules.now }
    requires before { (q : ℕ) → q < rule → IsLawfulAt rules.now q }
    ensures none { IfNone result (IsLawfulAt rules.now rule) }
    ensures some { IfSome result (Shows rules.now) }
    ensures fault { IfSome result (λ e. e ≢ GrammarError.Memory) }
{
    let body = body_of(rules, rule);
    if !calls_earlier(rule, body) {
        return Some(GrammarError::Order { rule });
    }
    if !is_shaped(rules, rule) {
        return Some(GrammarError::Rank { rule });
    }
    if count_params(body) != rank_of(rules, rule) {
        return Some(GrammarError::Linear { rule });
    }
    None
}

// Whether the body is one term, and the rank is allowed there.
fn is_shaped(rules: &[Rule], rule: usize) -> bool
    requires there { rule < length rules.now }
    requires earlier { CallsBelow rule (body_at rules.now rule) }
    requires small { (q : ℕ) → q < rule → get_or (ranks_of rules.now) q 0 ≤ 8 }
    ensures { IsTrue result ↔ IsShapedAt rules.now rule }
{
    if !is_one_term(rules, rule, body_of(rules, rule)) {
        return false;
    }
    let rank = rank_of(rules, rule);
    if rank > 8 {
        return false;
    }
    rule + 1 != rules.len() || rank == 0
}
