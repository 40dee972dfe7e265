// Down states from which nothing is hit: what a rule has at one of them is known by counts, without reading it.
ghost use Rattle.std.specs.Prelude.{◌≡◌, ◌<◌, ℕ, List, length, IfOk, IfSome};
ghost use Rattle.plain_tree.specs.declared.kind.Kind.{Kind};
ghost use Rattle.segment_counts.specs.Counting.{AreCounts};
ghost use Rattle.segment_counts.specs.Weights.{count, node_weight};
ghost use Rattle.slt_grammar.specs.Automata.{IsSpent};
ghost use Rattle.slt_grammar.specs.Keyed.{rules_of};
ghost use Rattle.slt_grammar.specs.declared.rules.Rule.{Rule};
ghost use Rattle.rule_runs.specs.Descents.{HasOutcome};
ghost use Rattle.rule_runs.specs.Outcomes.{outcome};
ghost use Rattle.rule_runs.specs.Risen.{IsRun, keys};
ghost use Rattle.rule_runs.specs.Tellings.{Listed, unhit_told};

use crate::rising::RiseTable;
use crate::spots::{Handed, Spot};
use crate::told::Told;
use segment_counts::Counts;
use slt_grammar::{Falling, Grammar, RunState};
use std::alloc::AllocError;

/// A down state from which nothing is hit, with the counts of the grammar's segments.
#[derive(Drop)]
pub struct Spent<'a, D> {
    pub down: D,
    pub counts: &'a Counts,
}

impl<'a, D> Spent<'a, D> {
    // What is told of a rule's segment, of which no node is hit.
    fn told(&self, rule: usize, segment: usize) -> Told
        ensures { (names : List (Kind × List ℕ)) (G : List Rule) → AreCounts names G self.now.counts.now → rule < length G → result ≡ unhit_told (count node_weight G rule segment) }
    {
        Told {
            nodes: self.counts.nodes(rule, segment),
            hits: 0,
            list: None,
        }
    }
}

// What a pair has at the spent state: what it hands to its parameters, which takes the place of what is in the list, and the stretch
// behind the last of them. None at another state.
pub(crate) fn spent_outcome<A: Falling>(
    automaton: &A,
    grammar: &Grammar,
    risen: &RiseTable<A::State>,
    spent: Option<&Spent<'_, A::Down>>,
    spot: &Spot<A::Down>,
    handed: &mut Vec<Handed<A::Down>>,
) -> Result<Option<Told>, AllocError>
    requires run { IsRun (A.algebra automaton.now) (rules_of grammar.now.rules) risen.now.known }
    requires there { spot.now.pair < length (keys risen.now.known) }
    requires spent { IfSome spent (λ s. IsSpent (A.downward automaton.now) s.now.down) }
    requires counts { IfSome spent (λ s. (names : List (Kind × List ℕ)) × AreCounts names (rules_of grammar.now.rules) s.now.counts.now) }
    ensures { IfOk result (λ found. IfSome found (λ last. (lists : Listed) → HasOutcome (A.algebra automaton.now) (A.downward automaton.now) (rules_of grammar.now.rules) (keys risen.now.known) lists spot.now (outcome handed.new.items last))) }
{
    // The call tells that the rules are a grammar.
    let _rules = grammar.rules();
    let Some(spent) = spent else {
        return Ok(None);
    };
    if spot.down != spent.down {
        return Ok(None);
    }
    let Some((rule, _)) = risen.known.pair(spot.pair) else {
        unreachable!()
    };
    let rank = grammar.rank(rule);
    handed.clear();
    'segments: for segment in 0..rank {
        handed.push(Handed {
            before: spent.told(rule, segment),
            down: spent.down.copy()?,
        })?;
    }
    Ok(Some(spent.told(rule, rank)))
}
