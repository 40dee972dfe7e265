// Where a digram occurs.
ghost use Rattle.std.specs.Prelude.{◌≡◌, ◌≢◌, ℕ, false, IfSome, IfNone, MatchBool};
ghost use Rattle.digram_index.specs.Digrams.{Cell, OccursAt};
ghost use Rattle.digram_index.specs.Keeping.{AreOccurrences};
ghost use Rattle.pair_replace.specs.Chains.{IsHead, IsLinkedAs};

use digram_index::{Index, item, site};
use slt_grammar::{Digram, Grammar, Key};

// An occurrence to fold next, by its lower node: its upper node is the lower node of no other. None exactly where there is none.
// Where `hint` is the lower node of one, it is from the same chain.
pub(crate) fn next_occurrence(
    grammar: &Grammar,
    index: &Index,
    digram: Digram,
    hint: Option<Key>,
) -> Option<Key>
    requires { AreOccurrences grammar.now.rules index.now }
    ensures some { IfSome result (λ key. IsHead index.now digram key.number) }
    ensures none { IfNone result ((k : ℕ) → IsLinkedAs index.now digram k → ⊥) }
{
    if let Some(key) = hint {
        if occurs(grammar, index, digram, key) {
            return Some(head(grammar, index, digram, key));
        }
    }
    match index.first(grammar, digram) {
        Some(lower) => Some(head(grammar, index, digram, lower)),
        None => None,
    }
}

// The first occurrence of a chain of which one is named by its lower node.
fn head(grammar: &Grammar, index: &Index, digram: Digram, lower: Key) -> Key
    requires occurrences { AreOccurrences grammar.now.rules index.now }
    requires linked { IsLinkedAs index.now digram lower.number }
    ensures { IsHead index.now digram result.number }
{
    let _limit = grammar.limit();
    if !can_chain(digram) {
        return lower;
    }
    let mut first = lower;
    let (_, mut above) = read(grammar, first);
    while occurs(grammar, index, digram, above) {
        first = above;
        above = read(grammar, first).1;
    }
    first
}

// Whether a key names the lower node of an occurrence of a digram.
fn occurs(grammar: &Grammar, index: &Index, digram: Digram, lower: Key) -> bool
    requires { AreOccurrences grammar.now.rules index.now }
    ensures { MatchBool result (IsLinkedAs index.now digram lower.number) (IsLinkedAs index.now digram lower.number → ⊥) }
{
    if !index.is_linked(lower) {
        return false;
    }
    let (found, _) = read(grammar, lower);
    found == digram
}

// The digram of an occurrence, named by its lower node, and its upper node.
fn read(grammar: &Grammar, lower: Key) -> (Digram, Key)
    requires { (o : Cell) × OccursAt grammar.now.rules lower o }
    ensures digram { (o : Cell) → OccursAt grammar.now.rules lower o → o.digram ≡ result.0 }
    ensures upper { (o : Cell) → OccursAt grammar.now.rules lower o → o.upper ≡ result.1.number }
{
    let low = site(grammar, lower);
    let (high, place) = low.parent.unwrap();
    let up = site(grammar, high);
    let digram = Digram {
        upper: up.label,
        place,
        lower: low.label,
    };
    (digram, high)
}

// Whether the lower node of an occurrence can be the upper node of another: it has one label.
fn can_chain(digram: Digram) -> bool
    ensures { result ≡ false → digram.upper ≢ digram.lower }
{
    digram.upper == digram.lower
}

// The node two steps down a chain from the lower node of an occurrence, where there are chains.
pub(crate) fn further(grammar: &Grammar, digram: Digram, lower: Key) -> Option<Key>
    requires { (o : Cell) × OccursAt grammar.now.rules lower o }
{
    // The call tells that the rules' bodies are terms.
    let _limit = grammar.limit();
    if !can_chain(digram) {
        return None;
    }
    let child = digram.place.checked_sub(1)?;
    let next = item(grammar, lower).kids.get(child)?;
    item(grammar, next).kids.get(child)
}
