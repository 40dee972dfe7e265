// Settling the grammar that is held across the borders of rules.
ghost use Rattle.std.specs.Prelude.{◌≡◌, ◌≤◌, ◌<◌, ◌^◌, ℕ, max, Option, Some, IfOk, IfSome, OnErr};
ghost use Rattle.tree_outside.specs.Files.{Told};
ghost use Rattle.slt_grammar.specs.Automata.{nodes_in};
ghost use Rattle.slt_grammar.specs.Digrams.{IsSettled};
ghost use Rattle.slt_grammar.specs.Grammars.{value};
ghost use Rattle.slt_grammar.specs.Keyed.{rules_of};
ghost use Rattle.slt_grammar.specs.Ranks.{greatest_rank};
ghost use Rattle.digram_index.specs.Linked.{IsIndexOf};
ghost use Rattle.border_repair.specs.Digrams.{IsCandidate, occurrences};
ghost use Rattle.store_core.specs.Machine.{RepairsWide};
ghost use Rattle.store_core.specs.Repairing.{IsGreatestWeight, SettlesTo};
ghost use Rattle.store_core.specs.StoreOf.{IsCounted, held_of, parts_of};
ghost use Rattle.store_core.specs.Texts.{answer_line};
ghost use Rattle.store_core.specs.Worlds.{AreLawfulParts, world};

use crate::answer::Answer;
use crate::loaded::Loaded;
use crate::repairing::{Settled, hold, settle_whole, settled_copy};
use border_repair::{Weights, across};
use slt_grammar::{Digram, Grammar};
use std::alloc::{AllocError, Global};

/// Makes a rule of the heaviest digram of the document, wherever it occurs, and settles the grammar for this rank, from 1 to 8. What is held
/// becomes that grammar, or the one settled as it stood where that is no larger. It is refused only for want of memory, and what is held
/// then stays.
pub(crate) fn repair_document_wide(
    alloc: Global,
    loaded: &mut Loaded,
    rank: usize,
) -> Result<Answer, AllocError>
    requires rank { rank ≤ 8 }
    requires held { AreLawfulParts (parts_of loaded.old.store) }
    requires counted { IsCounted loaded.old.store }
    requires few { loaded.old.edits < 2 ^ 64 }
    ensures held { AreLawfulParts (parts_of loaded.new.store) }
    ensures counted { IsCounted loaded.new.store }
    ensures few { loaded.new.edits < 2 ^ 64 }
    ensures repairs { IfOk result (λ answer. (told : Option Told) (count : ℕ)
        → RepairsWide rank (world (Some (held_of loaded.old)) told count) (answer_line answer) (world (Some (held_of loaded.new)) told count)) }
    ensures refused { OnErr result (held_of loaded.new ≡ held_of loaded.old) }
{
    let heaviest = find_heaviest(alloc, &loaded.store.grammar, rank)?;
    let settled = settled_across(alloc, &loaded.store.grammar, heaviest.digram, rank)?;
    let (rules, size) = hold(loaded, settled)?;
    Ok(Answer::RepairedWide {
        weight: heaviest.weight,
        rules,
        size,
    })
}

// The heaviest digram of a document within a rank, if one is there, and its weight.
#[derive(Clone, Copy)]
struct Heaviest {
    digram: Option<Digram>,
    weight: u64,
}

fn find_heaviest(alloc: Global, grammar: &Grammar, rank: usize) -> Result<Heaviest, AllocError>
    requires { nodes_in (value (rules_of grammar.now.rules)) < 2 ^ 63 }
    ensures weight { IfOk result (λ h. IsGreatestWeight rank (rules_of grammar.now.rules) h.weight) }
    ensures digram { IfOk result (λ h. IfSome h.digram (λ d. IsCandidate rank d × (0 < occurrences d (rules_of grammar.now.rules)))) }
{
    let weights = Weights::new(alloc, grammar)?;
    let digram = weights.top(rank);
    let weight = match digram {
        Some(digram) => weights.get(digram),
        None => 0,
    };
    Ok(Heaviest { digram, weight })
}

// A copy of the grammar, settled after a digram became a rule, or settled as it is where that leaves no more nodes.
fn settled_across(
    alloc: Global,
    grammar: &Grammar,
    digram: Option<Digram>,
    rank: usize,
) -> Result<Settled, AllocError>
    requires rank { rank ≤ 8 }
    requires digram { IfSome digram (λ d. IsCandidate rank d × (0 < occurrences d (rules_of grammar.now.rules))) }
    ensures settles { IfOk result (λ s. SettlesTo rank (rules_of grammar.now.rules) (rules_of s.grammar.rules)) }
    ensures ranks { IfOk result (λ s. greatest_rank (rules_of s.grammar.rules) ≤ max rank (greatest_rank (rules_of grammar.now.rules))) }
    ensures index { IfOk result (λ s. IsIndexOf s.grammar s.index) }
{
    let mut settled = settled_copy(alloc, grammar, rank)?;
    let Some(digram) = digram else {
        return Ok(settled);
    };
    improve(alloc, &mut settled, grammar, digram, rank)?;
    Ok(settled)
}

// Puts a copy of the grammar, settled after a digram became a rule, in the place of one that is settled, where it has fewer nodes.
fn improve(
    alloc: Global,
    settled: &mut Settled,
    grammar: &Grammar,
    digram: Digram,
    rank: usize,
) -> Result<(), AllocError>
    requires rank { rank ≤ 8 }
    requires digram { IsCandidate rank digram × (0 < occurrences digram (rules_of grammar.now.rules)) }
    requires settles { SettlesTo rank (rules_of grammar.now.rules) (rules_of settled.old.grammar.rules) }
    requires ranks { greatest_rank (rules_of settled.old.grammar.rules) ≤ max rank (greatest_rank (rules_of grammar.now.rules)) }
    requires index { IsIndexOf settled.old.grammar settled.old.index }
    ensures settles { SettlesTo rank (rules_of grammar.now.rules) (rules_of settled.new.grammar.rules) }
    ensures ranks { greatest_rank (rules_of settled.new.grammar.rules) ≤ max rank (greatest_rank (rules_of grammar.now.rules)) }
    ensures index { IsIndexOf settled.new.grammar settled.new.index }
{
    let wide = settled_with_rule(alloc, grammar, digram, rank)?;
    if wide.grammar.size() < settled.grammar.size() {
        *settled = wide;
    }
    Ok(())
}

// A copy of the grammar, settled for this rank after a digram became a rule.
fn settled_with_rule(
    alloc: Global,
    grammar: &Grammar,
    digram: Digram,
    rank: usize,
) -> Result<Settled, AllocError>
    requires rank { rank ≤ 8 }
    requires digram { IsCandidate rank digram × (0 < occurrences digram (rules_of grammar.now.rules)) }
    ensures settled { IfOk result (λ s. IsSettled (rules_of s.grammar.rules) rank) }
    ensures value { IfOk result (λ s. value (rules_of s.grammar.rules) ≡ value (rules_of grammar.now.rules)) }
    ensures ranks { IfOk result (λ s. greatest_rank (rules_of s.grammar.rules) ≤ max rank (greatest_rank (rules_of grammar.now.rules))) }
    ensures index { IfOk result (λ s. IsIndexOf s.grammar s.index) }
{
    let mut copy = grammar.copy()?;
    across(alloc, &mut copy, digram)?;
    settle_whole(alloc, copy, rank)
}
