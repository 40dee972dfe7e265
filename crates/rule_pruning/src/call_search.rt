// The calls of a rule are found through the index.
ghost use Rattle.std.specs.Prelude.{◌≡◌, ◌<◌, ◌≤◌, ℕ, length, Some, IfSome, IfNone, MatchBool};
ghost use Rattle.rule_arena.specs.declared.key.Key.{Key};
ghost use Rattle.slt_grammar.specs.Grammars.{calls_of};
ghost use Rattle.slt_grammar.specs.Keyed.{key_at, rules_of};
ghost use Rattle.digram_index.specs.Linked.{IsIndexOf};
ghost use Rattle.rule_pruning.specs.Calls.{StandsAsCallOf};

use digram_index::{Index, site};
use slt_grammar::{Grammar, Key, Label};

/// Where a search for the calls of a rule goes on, which no clause tells of: each call is found once the calls before it gave way.
#[derive(Clone, Copy, Drop)]
pub(crate) struct CallSearch {
    // where the index goes on
    hint: usize,
    // the first rule whose root is looked at
    caller: usize,
}

impl CallSearch {
    // A search that looks at no root until the index has no call left.
    pub(crate) fn new(grammar: &Grammar) -> CallSearch {
        CallSearch {
            hint: 0,
            caller: grammar.rules(),
        }
    }
}

// A call of a rule that is called.
pub(crate) fn find_call(
    grammar: &Grammar,
    index: &Index,
    rule: usize,
    search: &mut CallSearch,
) -> Key
    requires there { rule < length grammar.now.rules }
    requires called { 0 < calls_of (rules_of grammar.now.rules) rule }
    requires index { IsIndexOf grammar.now index.now }
    ensures { StandsAsCallOf grammar.now.rules rule result }
{
    // The calls tell that the bodies are terms, and that there are few rules.
    let _limit = grammar.limit();
    let _rules = grammar.rules();
    if let Some(caller) = root_caller(grammar, rule, search.caller) {
        search.caller = caller;
        return grammar.root(caller);
    }
    if let Some(found) = index.call_of(rule, search.hint) {
        search.hint = found.hint;
        return found.key;
    }
    // A rule is called by later ones alone.
    let caller = root_caller(grammar, rule, rule + 1).unwrap();
    search.caller = caller;
    grammar.root(caller)
}

// The first rule from one on whose root calls a rule.
fn root_caller(grammar: &Grammar, rule: usize, from: usize) -> Option<usize>
    ensures there { IfSome result (λ r. r < length grammar.now.rules) }
    ensures some { IfSome result (λ r. (key : Key) → key_at grammar.now.rules r 0 ≡ Some key → StandsAsCallOf grammar.now.rules rule key) }
    ensures none { IfNone result ((r : ℕ) (key : Key) → from ≤ r → key_at grammar.now.rules r 0 ≡ Some key → StandsAsCallOf grammar.now.rules rule key → ⊥) }
{
    for caller in from..grammar.rules() {
        if is_call(grammar, grammar.root(caller), rule) {
            return Some(caller);
        }
    }
    None
}

// Whether a node calls a rule.
fn is_call(grammar: &Grammar, key: Key, rule: usize) -> bool
    requires { (r : ℕ) × (p : ℕ) × (key_at grammar.now.rules r p ≡ Some key) }
    ensures { MatchBool result (StandsAsCallOf grammar.now.rules rule key) (StandsAsCallOf grammar.now.rules rule key → ⊥) }
{
    match site(grammar, key).label {
        Label::Call(called) => called == rule,
        _ => false,
    }
}
