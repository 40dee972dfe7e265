// Roots of bodies.
ghost use Rattle.std.specs.Prelude.{◌≡◌, ◌+◌, ◌<◌, ℕ, IfSome, IsTrue, Some, length};
ghost use Rattle.slt_grammar.specs.Keyed.{key_at};
ghost use Rattle.slt_grammar.specs.KeyedEdits.{Stands};
ghost use Rattle.digram_index.specs.Marking.{MarksStart};

use crate::index::Index;
use crate::nodes::site;
use slt_grammar::{Grammar, Key};

/// Whether a node stands in the start's body. It climbs, no further than to a node that is marked: only nodes of the start are.
pub fn stands_in_start(grammar: &Grammar, index: &Index, key: Key) -> bool
    requires there { Stands grammar.now.rules key }
    requires marked { MarksStart grammar.now.rules index.now }
    ensures { IsTrue result → (S : Stands grammar.now.rules key) → S.rule + 1 ≡ length grammar.now.rules }
{
    // The call tells that the bodies are terms.
    let _limit = grammar.limit();
    let mut here = key;
    while !index.is_marked(here) {
        let Some((upper, _)) = site(grammar, here).parent else {
            return here == grammar.root(grammar.rules() - 1);
        };
        here = upper;
    }
    true
}

/// The rule before the start whose body has this root. It looks at one rule after another.
pub fn rule_with(grammar: &Grammar, root: Key) -> Option<usize>
    ensures before { IfSome result (λ rule. rule + 1 < length grammar.now.rules) }
    ensures root { IfSome result (λ rule. key_at grammar.now.rules rule 0 ≡ Some root) }
{
    for rule in 0..grammar.rules() - 1 {
        if grammar.root(rule) == root {
            return Some(rule);
        }
    }
    None
}
