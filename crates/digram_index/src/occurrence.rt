// Occurrences that are read from a grammar.
ghost use Rattle.std.specs.Prelude.{◌≡◌, ◌<◌, ◌≤◌, ℕ, length};
ghost use Rattle.rule_arena.specs.declared.key.Key.{Key};
ghost use Rattle.slt_grammar.specs.Algebras.{ranks_of};
ghost use Rattle.slt_grammar.specs.Keyed.{rules_of};
ghost use Rattle.slt_grammar.specs.Names.{Call};
ghost use Rattle.digram_index.specs.Digrams.{Cell, OccursAt, joint_rank};

use crate::nodes::arity_of;
use read_steps::Steps;
use slt_grammar::{Digram, Grammar, Key};
use std::sync::ledger::{Blank, Ledger};

/// An occurrence as it is read from the grammar.
#[derive(Clone, Copy, Drop)]
pub struct Reading {
    pub digram: Digram,
    pub rank: usize,
    pub upper: Key,
}

/// The rank of a digram.
pub fn rank_of(grammar: &Grammar, digram: Digram) -> usize
    ensures { result ≡ joint_rank (ranks_of (rules_of grammar.now.rules)) digram.upper digram.lower }
{
    (arity_of(grammar, digram.upper) + arity_of(grammar, digram.lower)).saturating_sub(1)
}

/// Reads the occurrence of a lower node.
pub fn read<L: Ledger>(grammar: &Grammar, lower: Key, blank: Blank) -> Reading
    requires occurs { (o : Cell) × OccursAt grammar.now.rules lower o }
    requires name { blank.name ≡ L.name }
    requires parts { blank.parts ≡ L.parts }
    requires some { 0 < blank.parts }
    ensures told { (o : Cell) → OccursAt grammar.now.rules lower o → o ≡ record { digram = result.digram; rank = result.rank; upper = result.upper.number } }
    ensures upper { (q : ℕ) → result.digram.upper ≡ Call q → q < length grammar.now.rules }
    ensures lower { (q : ℕ) → result.digram.lower ≡ Call q → q < length grammar.now.rules }
    ensures small { result.rank < 16 }
    ensures place { result.digram.place ≤ 8 }
{
    let _rules = grammar.rules();
    let _limit = grammar.limit();
    let mut steps: Steps<L> = Steps::new(blank);
    let low = grammar.site(lower, &mut steps);
    let (high, place) = low.parent.unwrap();
    let up = grammar.site(high, &mut steps);
    let rank = (arity_of(grammar, up.label) + arity_of(grammar, low.label)).saturating_sub(1);
    Reading {
        digram: Digram {
            upper: up.label,
            place,
            lower: low.label,
        },
        rank,
        upper: high,
    }
}
