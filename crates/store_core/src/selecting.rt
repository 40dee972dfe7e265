// Finding what a query selects.
ghost use Rattle.std.specs.Prelude.{◌≡◌, ◌↔◌, ◌<◌, ◌≤◌, ◌+◌, ◌-◌, ◌*◌, ◌^◌, ℕ, List, All, Some, IfOk, IfErr, IfSome, IsSome, IsTrue, length, map};
ghost use Rattle.plain_tree.specs.Tree.{Tree};
ghost use Rattle.plain_tree.specs.declared.kind.Kind.{Kind};
ghost use Rattle.segment_counts.specs.Counting.{AreCounts};
ghost use Rattle.slt_grammar.specs.Automata.{IsSpent, hits, nodes_in};
ghost use Rattle.slt_grammar.specs.Grammars.{IsSwept, value, whole};
ghost use Rattle.slt_grammar.specs.Keyed.{rules_of};
ghost use Rattle.slt_grammar.specs.OneState.{HasOneState};
ghost use Rattle.text_list.specs.Marking.{mark_of};
ghost use Rattle.value_tests.specs.MarkedInstances.{marked_nodes};
ghost use Rattle.value_tests.specs.MarkedValues.{marked_value};
ghost use Rattle.xpath_parser.specs.Shown.{paths_of};
ghost use Rattle.selecting_automaton.specs.Bounds.{HasFewStates};
ghost use Rattle.selecting_automaton.specs.Words.{word_algebra, word_downward};
ghost use Rattle.store_core.specs.Acts.{Act, query_answered};
ghost use Rattle.store_core.specs.Printed.{hit_line};
ghost use Rattle.store_core.specs.Reads.{ReadsFew, most_reads};
ghost use Rattle.store_core.specs.Refusals.{Cause};
ghost use Rattle.store_core.specs.Errors.{IsNoPlainQuery, IsNoQuery};
ghost use Rattle.store_core.specs.Selecting.{Finds, HasSelected, IsPlainSelectorOf, IsReading, IsSelectorOf};
ghost use Rattle.store_core.specs.Texts.{selected_line};
ghost use Rattle.store_core.specs.StoreOf.{IsCounted, parts_of};
ghost use Rattle.store_core.specs.Worlds.{AreLawfulParts, PartsStandFor, World, parts_in};

use crate::answer::Refusal;
use plain_tree::{Bytes, Names};
use read_steps::Steps;
use rule_runs::{FallTable, Spent, fall, rise, rise_in_one_state};
use segment_counts::Counts;
use selecting_automaton::{Selector, compile};
use slt_grammar::{Falling, Grammar, Rising};
use std::alloc::{AllocError, Global};
use std::sync::ledger::Ledger;
use tree_updates::Store;
use value_runs::ValueRun;
use value_tests::Marks;
use xpath_parser::{Query, parse, spells_one};

/// How many nodes the query selects and, where they are to be listed, which, found over the rules. It is refused with `BadQuery` where
/// the text is no query, with `LargeQuery` where it is one that passes the limits, and with `Memory` for want of that.
///
/// Each rule is read once for each list of states in which runs meet it, whatever is answered; where the query has no filters, only by
/// the run downward. Where it compares, rules of instances with texts that equal its literals are rules of their own.
pub(crate) fn select<L: Ledger>(
    alloc: Global,
    text: &[u8],
    store: &Store,
    listed: bool,
    steps: &mut Steps<L>,
) -> Result<ValueRun, Refusal>
    requires held { AreLawfulParts (parts_of store.now) }
    requires counted { IsCounted store.now }
    ensures selects { IfOk result (λ found. (tree : Tree) (w : World) → parts_in w.state ≡ Some (parts_of store.now) → PartsStandFor (parts_of store.now) tree → HasSelected text.now w tree found) }
    ensures listed { IfOk result (λ found. IsSome found.hits ↔ IsTrue listed) }
    ensures lines { IfOk result (λ found. (tree : Tree) → PartsStandFor (parts_of store.now) tree → IfSome found.hits (All (λ hit. hit_line store.now.names hit ≡ selected_line tree hit.number))) }
    ensures refused { IfErr result (λ refusal. (act : Act) (old new : World) → query_answered act ≡ Some text.now → parts_in old.state ≡ Some (parts_of store.now) → Cause refusal act old new) }
    ensures reads { ReadsFew text.now (parts_of store.now) steps.old steps.new }
{
    // The call tells that the text spells one query alone.
    spells_one();
    let query = read_query(alloc, text)?;
    let selector = selector_of(alloc, text, &query, &store.names)?;
    let found = if query.compares() {
        run_marked(alloc, query.literals(), &selector, store, listed, steps)?
    } else {
        run_plain(alloc, &selector, store, listed, steps)?
    };
    Ok(found)
}

/// The selector of the query that the text spells, if it compares nothing. It is refused as `select` is, and with `ValueQuery` where the query
/// compares.
pub(crate) fn plain_selector_of(
    alloc: Global,
    text: &[u8],
    names: &Names,
) -> Result<Selector, Refusal>
    ensures selector { IfOk result (IsPlainSelectorOf text.now names.now) }
    ensures refused { IfErr result (λ refusal. IsNoPlainQuery refusal text.now) }
{
    // The call tells that the text spells one query alone.
    spells_one();
    let query = read_query(alloc, text)?;
    if query.compares() {
        return Err(Refusal::ValueQuery);
    }
    let selector = selector_of(alloc, text, &query, names)?;
    Ok(selector)
}

// The query that the text spells.
fn read_query(alloc: Global, text: &[u8]) -> Result<Query, Refusal>
    ensures reading { IfOk result (λ query. IsReading text.now (paths_of query.paths)) }
    ensures refused { IfErr result (λ refusal. IsNoQuery refusal text.now) }
{
    let query = parse(alloc, text)?;
    Ok(query)
}

// The selector of the query that was read from the text.
fn selector_of(
    alloc: Global,
    text: &[u8],
    query: &Query,
    names: &Names,
) -> Result<Selector, AllocError>
    requires { IsReading text.now (paths_of query.now.paths) }
    ensures { IfOk result (IsSelectorOf text.now names.now) }
{
    let selector = compile(alloc, query, names)?;
    Ok(selector)
}

// What the selector hits of the store's document, whose texts that equal literals have symbols of their own.
fn run_marked<L: Ledger>(
    alloc: Global,
    literals: &[Bytes],
    selector: &Selector,
    store: &Store,
    listed: bool,
    steps: &mut Steps<L>,
) -> Result<ValueRun, AllocError>
    requires held { AreLawfulParts (parts_of store.now) }
    requires counted { IsCounted store.now }
    requires few { length literals.now < 2 ^ 32 - 1 }
    ensures finds { IfOk result (Finds (hits (word_algebra selector.now) (word_downward selector.now) (marked_value store.now.names (map (mark_of literals.now) store.now.texts.texts) (rules_of store.now.grammar.rules))) (value (rules_of store.now.grammar.rules)) listed) }
    ensures reads { (parts steps_outside : ℕ) → HasFewStates (word_algebra selector.now) (word_downward selector.now) parts steps_outside
        → steps.new ≤ steps.old + (most_reads (rules_of store.now.grammar.rules) parts steps_outside + 4 * marked_nodes store.now.names (map (mark_of literals.now) store.now.texts.texts) (rules_of store.now.grammar.rules)) }
{
    let marks = store.texts.marks(alloc, literals)?;
    let marks = Marks::of(alloc, marks)?;
    ValueRun::new(
        alloc,
        &store.grammar,
        &store.counts,
        &store.names,
        &marks,
        selector,
        listed,
        steps,
    )
}

// What the selector hits of the store's document.
fn run_plain<L: Ledger>(
    alloc: Global,
    selector: &Selector,
    store: &Store,
    listed: bool,
    steps: &mut Steps<L>,
) -> Result<ValueRun, AllocError>
    requires held { AreLawfulParts (parts_of store.now) }
    requires counted { IsCounted store.now }
    ensures finds { IfOk result (Finds (hits (word_algebra selector.now) (word_downward selector.now) (value (rules_of store.now.grammar.rules))) (value (rules_of store.now.grammar.rules)) listed) }
    ensures reads { (parts steps_outside : ℕ) → HasFewStates (word_algebra selector.now) (word_downward selector.now) parts steps_outside
        → steps.new ≤ steps.old + most_reads (rules_of store.now.grammar.rules) parts steps_outside }
{
    let found = run(
        alloc,
        selector,
        &store.grammar,
        &store.counts,
        listed,
        steps,
    )?;
    Ok(ValueRun::plain(found))
}

// What the selector hits of all that the grammar stands for. It is refused only for want of memory.
fn run<L: Ledger>(
    alloc: Global,
    selector: &Selector,
    grammar: &Grammar,
    counts: &Counts,
    listed: bool,
    steps: &mut Steps<L>,
) -> Result<FallTable, AllocError>
    requires small { nodes_in (value (rules_of grammar.now.rules)) < 2 ^ 63 }
    requires swept { IsSwept (rules_of grammar.now.rules) }
    requires counted { (names : List (Kind × List ℕ)) × AreCounts names (rules_of grammar.now.rules) counts.now }
    ensures finds { IfOk result (Finds (hits (⟦<Selector as Rising>⟧.algebra selector.now) (⟦<Selector as Falling>⟧.downward selector.now) (value (rules_of grammar.now.rules))) (value (rules_of grammar.now.rules)) listed) }
    ensures reads { (parts steps_outside : ℕ) → HasFewStates (⟦<Selector as Rising>⟧.algebra selector.now) (⟦<Selector as Falling>⟧.downward selector.now) parts steps_outside
        → steps.new ≤ steps.old + most_reads (rules_of grammar.now.rules) parts steps_outside }
{
    match selector.without_filters() {
        Some(blind) => {
            let spent = Spent {
                down: blind.spent(),
                counts,
            };
            run_downward(alloc, &blind, grammar, &spent, listed, steps)
        }
        None => run_both_ways(alloc, selector, grammar, counts, listed, steps),
    }
}

// What an automaton hits which tells no nodes apart upward. It is run downward alone, and each body is read once.
fn run_downward<A: Falling, L: Ledger>(
    alloc: Global,
    automaton: &A,
    grammar: &Grammar,
    spent: &Spent<'_, A::Down>,
    listed: bool,
    steps: &mut Steps<L>,
) -> Result<FallTable, AllocError>
    requires one { HasOneState (A.algebra automaton.now) }
    requires small { nodes_in (value (rules_of grammar.now.rules)) < 2 ^ 63 }
    requires swept { IsSwept (rules_of grammar.now.rules) }
    requires spent { IsSpent (A.downward automaton.now) spent.now.down }
    requires counts { (names : List (Kind × List ℕ)) × AreCounts names (rules_of grammar.now.rules) spent.now.counts.now }
    ensures finds { IfOk result (Finds (hits (A.algebra automaton.now) (A.downward automaton.now) (value (rules_of grammar.now.rules))) (value (rules_of grammar.now.rules)) listed) }
    ensures reads { steps.new ≤ steps.old + 2 * whole (rules_of grammar.now.rules) }
{
    let risen = rise_in_one_state(alloc, grammar, automaton)?;
    fall(
        alloc,
        grammar,
        automaton,
        &risen,
        Some(spent),
        listed,
        steps,
    )
}

// What the selector hits, by a run upward and one downward over what that found.
fn run_both_ways<L: Ledger>(
    alloc: Global,
    selector: &Selector,
    grammar: &Grammar,
    counts: &Counts,
    listed: bool,
    steps: &mut Steps<L>,
) -> Result<FallTable, AllocError>
    requires small { nodes_in (value (rules_of grammar.now.rules)) < 2 ^ 63 }
    requires counted { (names : List (Kind × List ℕ)) × AreCounts names (rules_of grammar.now.rules) counts.now }
    ensures finds { IfOk result (Finds (hits (⟦<Selector as Rising>⟧.algebra selector.now) (⟦<Selector as Falling>⟧.downward selector.now) (value (rules_of grammar.now.rules))) (value (rules_of grammar.now.rules)) listed) }
    ensures reads { (parts steps_outside : ℕ) → HasFewStates (⟦<Selector as Rising>⟧.algebra selector.now) (⟦<Selector as Falling>⟧.downward selector.now) parts steps_outside
        → steps.new ≤ steps.old + most_reads (rules_of grammar.now.rules) parts steps_outside }
{
    // The call tells that the rules are a grammar.
    let _rules = grammar.rules();
    let risen = rise(alloc, grammar, selector, true, steps)?;
    let spent = Spent {
        down: selector.spent(),
        counts,
    };
    fall(
        alloc,
        grammar,
        selector,
        &risen,
        Some(&spent),
        listed,
        steps,
    )
}
