// Grammars, what they are made of and their changes, as slt_grammar promises them.
ghost use Rattle.std.specs.Prelude.{◌≡◌, IfOk, IfErr, OnOk, ◌+◌, ◌≤◌, ℕ, IsOk, OnErr, Some, length, ◌-◌, ◌*◌, ◌<◌, List, IfNone, IfSome};
ghost use Rattle.rule_arena.specs.Terms.{labelled};
ghost use Rattle.rule_arena.specs.declared.key.Key.{Key};
ghost use Rattle.rule_arena.specs.declared.label.Label.TheVariants.{Symbol};
ghost use Rattle.slt_grammar.specs.Bodies.{real_nodes};
ghost use Rattle.slt_grammar.specs.Calling.{BeginsWith};
ghost use Rattle.slt_grammar.specs.ChangedValues.{ChangesSymbol};
ghost use Rattle.slt_grammar.specs.Faults.{Shows};
ghost use Rattle.slt_grammar.specs.Grammars.{IsGrammar, IsSwept, body_at, size, value_at, value};
ghost use Rattle.slt_grammar.specs.Keyed.{rules_of, key_at, nodes_at};
ghost use Rattle.slt_grammar.specs.KeyedEdits.{IsInlined, StandsAsCall, Stands, StandsAsSymbol, StandsInStart, with_nodes};
ghost use Rattle.slt_grammar.specs.RulePuts.{IsLawfulBefore, IsPut};
ghost use Rattle.slt_grammar.specs.RuleValues.{HaveOtherValues, HasRuleMore};

use read_steps::Steps;
use slt_grammar::{Body, Grammar, GrammarError, Inlined, Key, Kids, RuleList, check};
use std::alloc::{AllocError, Global};
use std::sync::ledger::Ledger;

/// The grammar of these rules, if they are one and every rule but the last is called. The error is the first fault.
pub fn check_told(alloc: Global, rules: RuleList) -> Result<Grammar, GrammarError>
    ensures rules { IfOk result (λ g. rules_of g.rules ≡ rules) }
    ensures grammar { OnOk result (IsGrammar rules) }
    ensures swept { OnOk result (IsSwept rules) }
    ensures fault { IfErr result (Shows rules) }
    ensures memory { result ≡ Err GrammarError.Memory → IsGrammar rules }
    ensures memory_swept { result ≡ Err GrammarError.Memory → IsSwept rules }
{
    check(alloc, rules)
}

/// A call gives way to the body of its rule, over the call's arguments. The answer says where the node that was followed stands.
pub fn inline_told(grammar: &mut Grammar, call: Key, follow: Key) -> Result<Inlined, AllocError>
    requires { StandsAsCall grammar.old.rules call }
    ensures rules { IfOk result (λ inlined. (C : StandsAsCall grammar.old.rules call)
        → IsInlined grammar.old.rules grammar.new.rules C.here.rule C.here.place C.called follow inlined.followed) }
    ensures root { IfOk result (λ inlined. (C : StandsAsCall grammar.old.rules call)
        → key_at grammar.new.rules C.here.rule C.here.place ≡ Some inlined.root) }
    ensures refused { OnErr result (grammar.new.rules ≡ grammar.old.rules) }
    ensures values { (r : ℕ) → value_at (rules_of grammar.new.rules) r ≡ value_at (rules_of grammar.old.rules) r }
    ensures size { OnOk result ((C : StandsAsCall grammar.old.rules call)
        → size (rules_of grammar.new.rules) + 1 ≡ size (rules_of grammar.old.rules) + real_nodes (body_at (rules_of grammar.old.rules) C.called)) }
    ensures succeeds { (C : StandsAsCall grammar.old.rules call) → length (nodes_at grammar.old.rules C.called) ≤ grammar.old.spare_nodes
        → IsOk result }
    ensures spare_nodes { OnOk result ((C : StandsAsCall grammar.old.rules call)
        → grammar.old.spare_nodes ≤ grammar.new.spare_nodes + length (nodes_at grammar.old.rules C.called)) }
    ensures spare_rules { grammar.new.spare_rules ≡ grammar.old.spare_rules }
    ensures limit { grammar.old.limit ≤ grammar.new.limit }
    ensures stays { (C : StandsAsCall grammar.old.rules call) → length (nodes_at grammar.old.rules C.called) ≤ grammar.old.spare_nodes
        → grammar.new.limit ≡ grammar.old.limit }
{
    grammar.inline(call, follow)
}

/// A node gets another symbol; in the start's body so does one node of the value, and nothing else changes.
pub fn relabel_told(grammar: &mut Grammar, at: Key, symbol: usize)
    requires { StandsAsSymbol grammar.old.rules at }
    ensures rules { (S : Stands grammar.old.rules at) → grammar.new.rules
        ≡ with_nodes grammar.old.rules S.rule (labelled (nodes_at grammar.old.rules S.rule) S.place (Symbol symbol)) }
    ensures size { size (rules_of grammar.new.rules) ≡ size (rules_of grammar.old.rules) }
    ensures value { (S : StandsInStart grammar.old.rules at) → ChangesSymbol (rules_of grammar.old.rules) (rules_of grammar.new.rules) S.node.here.place symbol }
    ensures values { StandsInStart grammar.old.rules at → HaveOtherValues (length (rules_of grammar.old.rules) - 1) (rules_of grammar.old.rules) (rules_of grammar.new.rules) }
    ensures spare_nodes { grammar.new.spare_nodes ≡ grammar.old.spare_nodes }
    ensures spare_rules { grammar.new.spare_rules ≡ grammar.old.spare_rules }
    ensures limit { grammar.new.limit ≡ grammar.old.limit }
{
    grammar.relabel(at, symbol)
}

/// The arguments over which a rule's body begins at a node, or that it doesn't.
pub fn match_at_told<L: Ledger>(
    grammar: &Grammar,
    at: Key,
    rule: usize,
    steps: &mut Steps<L>,
) -> Option<Kids>
    requires there { Stands grammar.now.rules at }
    requires rule { rule < length grammar.now.rules }
    ensures some { IfSome result (λ arguments. (S : Stands grammar.now.rules at) → rule < S.rule → BeginsWith grammar.now.rules at rule arguments) }
    ensures none { IfNone result ((arguments : List Key) → BeginsWith grammar.now.rules at rule arguments → ⊥) }
    ensures steps { steps.new ≤ steps.old + (1 + 4 * length (nodes_at grammar.now.rules rule)) }
{
    grammar.match_at(at, rule, steps)
}

/// A rule comes to stand at a place, and the later rules follow it.
pub fn add_rule_told(
    grammar: &mut Grammar,
    place: usize,
    rank: usize,
    body: &Body,
) -> Result<(), AllocError>
    requires place { place < length grammar.old.rules }
    requires body { IsLawfulBefore (rules_of grammar.old.rules) place rank body.now }
    ensures rules { OnOk result (IsPut grammar.old.rules grammar.new.rules place rank body.now) }
    ensures refused { OnErr result (grammar.new.rules ≡ grammar.old.rules) }
    ensures value { value (rules_of grammar.new.rules) ≡ value (rules_of grammar.old.rules) }
    ensures values { OnOk result (HasRuleMore place (rules_of grammar.old.rules) (rules_of grammar.new.rules)) }
    ensures size { OnOk result (size (rules_of grammar.new.rules) ≡ size (rules_of grammar.old.rules) + real_nodes body.now) }
    ensures succeeds { length body.now ≤ grammar.old.spare_nodes → 0 < grammar.old.spare_rules → IsOk result }
    ensures spare_nodes { OnOk result (grammar.old.spare_nodes ≤ grammar.new.spare_nodes + length body.now) }
    ensures spare_rules { OnOk result (grammar.old.spare_rules ≤ grammar.new.spare_rules + 1) }
    ensures limit { grammar.old.limit ≤ grammar.new.limit }
    ensures stays { length body.now ≤ grammar.old.spare_nodes → grammar.new.limit ≡ grammar.old.limit }
{
    grammar.add_rule(place, rank, body)
}
