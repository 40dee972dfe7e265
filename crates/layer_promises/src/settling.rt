// Replacing, pruning and settling, as pair_replace, rule_pruning and local_repair promise it.
ghost use Rattle.std.specs.Prelude.{◌≡◌, ◌≢◌, ◌+◌, ◌<◌, ◌≤◌, ℕ, List, IfOk, OnOk, OnErr, length, max};
ghost use Rattle.slt_grammar.specs.Digrams.{HasThreeDisjoint, Occurrence, Occurs, digram_rank, IsSettled};
ghost use Rattle.slt_grammar.specs.Editing.{shifted};
ghost use Rattle.slt_grammar.specs.Grammars.{size, value, value_at, IsSwept};
ghost use Rattle.slt_grammar.specs.Keyed.{rules_of};
ghost use Rattle.slt_grammar.specs.Ranks.{greatest_rank};
ghost use Rattle.digram_index.specs.Linked.{IsIndexOf, cell_count};
ghost use Rattle.digram_index.specs.Marking.{KeepsMarked, MarksStart};
ghost use Rattle.digram_index.specs.Settled.{HasTwoDisjoint};
ghost use Rattle.pair_replace.specs.Disjoint.{OccurDisjoint};
ghost use Rattle.pair_replace.specs.NewRules.{IsRuleOf};
ghost use Rattle.rule_pruning.specs.Saving.{AllSave};
ghost use Rattle.local_repair.specs.Settling.{IsNoLarger};

use digram_index::Index;
use local_repair::{settle, settle_deeply, settle_edited};
use pair_replace::{Replaced, replace};
use rule_pruning::prune;
use slt_grammar::{Digram, Grammar};
use std::alloc::{AllocError, Global};

/// A digram becomes a rule, and all its occurrences that share no node become calls of it. The answer counts them.
pub fn replace_told(
    alloc: Global,
    grammar: &mut Grammar,
    index: &mut Index,
    digram: Digram,
) -> Result<Replaced, AllocError>
    requires index { IsIndexOf grammar.old index.old }
    requires two { HasTwoDisjoint (rules_of grammar.old.rules) digram }
    requires rank { digram_rank (rules_of grammar.old.rules) digram ≤ 8 }
    ensures index { IsIndexOf grammar.new index.new }
    ensures value { value (rules_of grammar.new.rules) ≡ value (rules_of grammar.old.rules) }
    ensures rules { OnOk result (length grammar.new.rules ≡ length grammar.old.rules + 1) }
    ensures body { IfOk result (λ r. IsRuleOf (rules_of grammar.old.rules) (rules_of grammar.new.rules) digram r.rule) }
    ensures ranks { greatest_rank (rules_of grammar.new.rules) ≤ max (digram_rank (rules_of grammar.old.rules) digram) (greatest_rank (rules_of grammar.old.rules)) }
    ensures only { IfOk result (λ r. (o : Occurrence) → Occurs (rules_of grammar.new.rules) digram o → o.rule ≡ r.rule) }
    ensures most { IfOk result (λ r. (os : List Occurrence) → OccurDisjoint (rules_of grammar.old.rules) digram os → length os ≤ r.count) }
    ensures count { IfOk result (λ r. 2 ≤ r.count) }
    ensures three { HasThreeDisjoint (rules_of grammar.old.rules) digram → IfOk result (λ r. 3 ≤ r.count) }
    ensures size { IfOk result (λ r. size (rules_of grammar.new.rules) + r.count ≡ size (rules_of grammar.old.rules) + 2) }
    ensures refused { OnErr result (size (rules_of grammar.new.rules) ≤ size (rules_of grammar.old.rules)) }
    ensures refused_rules { OnErr result (size (rules_of grammar.new.rules) + length grammar.new.rules ≤ size (rules_of grammar.old.rules) + length grammar.old.rules) }
    ensures place { IfOk result (λ r. r.rule < length grammar.old.rules) }
    ensures values { IfOk result (λ r. (q : ℕ) → q < length grammar.old.rules → value_at (rules_of grammar.new.rules) (shifted r.rule q) ≡ value_at (rules_of grammar.old.rules) q) }
    ensures differ { IfOk result (λ r. digram.upper ≢ digram.lower → r.count ≡ cell_count digram index.old.cells) }
    ensures swept { IsSwept (rules_of grammar.old.rules) → IsSwept (rules_of grammar.new.rules) }
    ensures marks { KeepsMarked grammar.old.rules index.old grammar.new.rules index.new }
{
    let done = replace(alloc, grammar, index, digram)?;
    Ok(Replaced {
        count: done.count,
        rule: done.rule,
    })
}

/// No rule is left that is never called or saves nothing.
pub fn prune_told(alloc: Global, grammar: &mut Grammar, index: &mut Index) -> Result<(), AllocError>
    requires { IsIndexOf grammar.old index.old }
    ensures swept { OnOk result (IsSwept (rules_of grammar.new.rules)) }
    ensures save { OnOk result (AllSave (rules_of grammar.new.rules)) }
    ensures value { value (rules_of grammar.new.rules) ≡ value (rules_of grammar.old.rules) }
    ensures size { size (rules_of grammar.new.rules) ≤ size (rules_of grammar.old.rules) }
{
    prune(alloc, grammar, index)
}

/// No digram of a rank within the bound has three occurrences left that share no node, and the grammar is no larger.
pub fn settle_told(alloc: Global, grammar: &mut Grammar, bound: usize) -> Result<(), AllocError>
    requires { bound ≤ 8 }
    ensures settled { OnOk result (IsSettled (rules_of grammar.new.rules) bound) }
    ensures kept { IsNoLarger (rules_of grammar.old.rules) (rules_of grammar.new.rules) }
    ensures ranks { greatest_rank (rules_of grammar.new.rules) ≤ max bound (greatest_rank (rules_of grammar.old.rules)) }
{
    settle(alloc, grammar, bound)
}

/// The same where nodes of the start are marked, which stay marked or are gone.
pub fn settle_edited_told(
    alloc: Global,
    grammar: &mut Grammar,
    index: &mut Index,
    bound: usize,
) -> Result<(), AllocError>
    requires bound { bound ≤ 8 }
    requires index { IsIndexOf grammar.old index.old }
    requires marked { MarksStart grammar.old.rules index.old }
    ensures settled { OnOk result (IsSettled (rules_of grammar.new.rules) bound) }
    ensures kept { IsNoLarger (rules_of grammar.old.rules) (rules_of grammar.new.rules) }
    ensures ranks { greatest_rank (rules_of grammar.new.rules) ≤ max bound (greatest_rank (rules_of grammar.old.rules)) }
    ensures index { IsIndexOf grammar.new index.new }
    ensures marks { KeepsMarked grammar.old.rules index.old grammar.new.rules index.new }
{
    settle_edited(alloc, grammar, index, bound)
}

/// The grammar is settled for the bound, and has the value that it had.
pub fn settle_deeply_told(
    alloc: Global,
    grammar: &mut Grammar,
    bound: usize,
) -> Result<(), AllocError>
    requires bound { bound ≤ 8 }
    requires swept { IsSwept (rules_of grammar.old.rules) }
    ensures settled { OnOk result (IsSettled (rules_of grammar.new.rules) bound) }
    ensures value { value (rules_of grammar.new.rules) ≡ value (rules_of grammar.old.rules) }
    ensures swept { IsSwept (rules_of grammar.new.rules) }
    ensures ranks { greatest_rank (rules_of grammar.new.rules) ≤ max bound (greatest_rank (rules_of grammar.old.rules)) }
{
    settle_deeply(alloc, grammar, bound)
}
