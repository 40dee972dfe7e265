// How often each digram occurs in what a grammar stands for.
ghost use Rattle.std.specs.Prelude.{◌≡◌, ◌↔◌, ◌+◌, ◌<◌, ◌≤◌, ◌^◌, ℕ, Some, IfOk, OnOk, MatchOption, IsTrue, slice_get};
ghost use Rattle.indexmap.specs.IndexMap.{index_map_len};
ghost use Rattle.slt_grammar.specs.Automata.{nodes_in};
ghost use Rattle.slt_grammar.specs.Grammars.{value};
ghost use Rattle.slt_grammar.specs.Keyed.{rules_of};
ghost use Rattle.slt_grammar.specs.declared.digram.Digram.{Digram};
ghost use Rattle.border_repair.specs.Counted.{counted, counted_edge, digram_of};
ghost use Rattle.border_repair.specs.Digrams.{occurrences, IsCandidate, IsTop};
ghost use Rattle.border_repair.specs.Rims.{AreRimsOf};

use crate::edge::Edge;
use crate::rims::{Above, Rim, rims_of};
use crate::uses::{add_edges, add_uses};
use indexmap::IndexMap;
use read_steps::Steps;
use slt_grammar::{Digram, Grammar, Label};
use std::alloc::{AllocError, Global};
use std::marker::{Brand, Model};
use std::sync::ledger::{Blank, Ledger};

/// The weight of each digram whose upper label is a symbol: how many nodes of a grammar's value have that label and, as their child at
/// the digram's place, a node with the lower label. It is seen as the edges that occur with their numbers, and `counted` tells a digram's.
#[derive(Drop)]
pub struct Weights {
    counts: IndexMap<Edge, u64>,
}

impl Model for Weights {
    ghost use Rattle.std.specs.Prelude.{List, ℕ};
    ghost use Rattle.border_repair.specs.declared.edge.Edge.{Edge};

    ghost Value = { List (Edge × ℕ) };

    ghost view = { λ w. w.counts.entries };
}

impl Weights {
    /// The weights of a grammar whose value has at most 2^63 - 1 nodes that aren't bottom. No call is unfolded.
    pub fn new(alloc: Global, grammar: &Grammar) -> Result<Weights, AllocError>
        requires { nodes_in (value (rules_of grammar.now.rules)) < 2 ^ 63 }
        ensures { IfOk result (λ w. (d : Digram) → counted w d ≡ occurrences d (rules_of grammar.now.rules)) }
    {
        let rims = rims_of(alloc, grammar)?;
        let mut counts = IndexMap::new(alloc);
        weigh::<Brand>(alloc, grammar, rims.as_slice(), &mut counts, Blank::new(1))?;
        Ok(Weights { counts })
    }

    /// The weight of a digram, and 0 where its upper label is no symbol.
    pub fn get(&self, digram: Digram) -> u64
        ensures { result ≡ counted self.now digram }
    {
        match digram.upper {
            Label::Symbol(upper) => {
                let edge = Edge {
                    upper,
                    place: digram.place,
                    lower: digram.lower,
                };
                self.counts.get(&edge).copied().unwrap_or(0)
            }
            _ => 0,
        }
    }

    /// A digram of greatest weight among those of weight at least 1 whose rule would have a rank within the bound, and whose labels
    /// differ; None exactly where there is none.
    pub fn top(&self, bound: usize) -> Option<Digram>
        ensures { MatchOption result ((d : Digram) → IsCandidate bound d → counted self.now d ≡ 0) (IsTop (counted self.now) bound) }
    {
        let mut top = None;
        let mut most = 0;
        'entries: for at in 0..self.counts.len() {
            let (edge, weight) = entry(&self.counts, at);
            if weight > most && is_candidate(edge, bound) {
                most = weight;
                top = Some(digram_of(edge));
            }
        }
        top
    }
}

// The edge at a place of a map, and how often it was counted.
fn entry(counts: &IndexMap<Edge, u64>, at: usize) -> (Edge, u64)
    requires { at < index_map_len counts.now }
    ensures there { slice_get counts.now.entries at ≡ Some (result.0, result.1) }
    ensures counted { counted_edge counts.now.entries result.0 ≡ result.1 }
{
    let (edge, weight) = counts.get_index(at).unwrap();
    (*edge, *weight)
}

// An edge as a digram.
fn digram_of(edge: Edge) -> Digram
    ensures { result ≡ digram_of edge }
{
    Digram {
        upper: Label::Symbol(edge.upper),
        place: edge.place,
        lower: edge.lower,
    }
}

// Whether an edge may become a rule of a rank within the bound, and its labels differ.
fn is_candidate(edge: Edge, bound: usize) -> bool
    ensures { IsTrue result ↔ IsCandidate bound (digram_of edge) }
{
    match edge.lower {
        Label::Symbol(lower) => bound >= 3 && lower != edge.upper,
        Label::Bottom => bound >= 1,
        _ => false,
    }
}

// Counts the edges of all rules, from the start down.
fn weigh<L: Ledger>(
    alloc: Global,
    grammar: &Grammar,
    rims: &[Rim],
    counts: &mut IndexMap<Edge, u64>,
    blank: Blank,
) -> Result<(), AllocError>
    requires name { blank.name ≡ L.name }
    requires parts { blank.parts ≡ L.parts }
    requires some { 0 < blank.parts }
    requires none { (d : Digram) → counted counts.old.entries d ≡ 0 }
    requires rims { AreRimsOf (rules_of grammar.now.rules) rims.now }
    requires few { nodes_in (value (rules_of grammar.now.rules)) < 2 ^ 63 }
    ensures { OnOk result ((d : Digram) → counted counts.new.entries d ≡ occurrences d (rules_of grammar.now.rules)) }
{
    let mut steps: Steps<L> = Steps::new(blank);
    let rules = grammar.rules();
    let mut uses = vec![in alloc; 0; rules]?;
    uses[rules - 1] = 1;
    let mut coming = Vec::new(alloc);
    let mut left = rules;
    'downward: while left > 0 {
        left -= 1;
        let times = uses[left];
        add_edges(grammar, rims, left, times, counts, &mut coming, &mut steps)?;
        add_uses(grammar, left, times, uses.as_mut_slice(), &mut steps);
    }
    Ok(())
}
