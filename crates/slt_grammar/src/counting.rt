// What is counted over all bodies.
ghost use Rattle.std.specs.Prelude.{◌≡◌, ◌+◌, ◌<◌, ◌≤◌, ◌^◌, ◌∷◌, [], ℕ, List, Some, length, slice_index, vec_capacity, IfNone, IfSome};
ghost use Rattle.rule_arena.specs.Terms.{Node, IsRoot, term_at};
ghost use Rattle.rule_arena.specs.declared.label.Label.TheVariants.{Call};
ghost use Rattle.slt_grammar.specs.Bodies.{calls_in, real_nodes, CallsBelow};
ghost use Rattle.slt_grammar.specs.Grammars.{calls_of, size, whole, IsGrammar};
ghost use Rattle.slt_grammar.specs.Keyed.{labels_of};
ghost use Rattle.slt_grammar.specs.Placing.{placed, AreKnown};

use crate::bodies::{body_of, count_params};
use crate::order::{Order, place_label};
use crate::reading::pass;
use crate::rules::Rule;
use crate::shape::Shape;
use rule_arena::{Arena, Key, Label};

// How many nodes there are, without parameters.
pub(crate) fn count_nodes(rules: &[Rule]) -> usize
    requires few { whole rules.now < 2 ^ 63 }
    ensures { result ≡ size rules.now }
{
    let mut size = 0;
    for rule in 0..rules.len() {
        let body = body_of(rules, rule);
        size += body.len() - count_params(body);
    }
    size
}

// Counts how often each rule is called.
pub(crate) fn count_calls(calls: &mut [u64], rules: &[Rule])
    requires grammar { IsGrammar rules.now }
    requires few { whole rules.now < 2 ^ 63 }
    requires room { length calls.old ≡ length rules.now }
    ensures len { length calls.new ≡ length rules.now }
    ensures calls { (q : ℕ) → q < length rules.now → slice_index calls.new q ≡ calls_of rules.now q }
{
    calls.fill(0);
    for rule in 0..rules.len() {
        add_calls(calls, body_of(rules, rule));
    }
}

// Adds the calls of a body.
pub(crate) fn add_calls(calls: &mut [u64], body: &[Label])
    requires there { CallsBelow (length calls.old) body.now }
    requires few { (q : ℕ) → q < length calls.old → slice_index calls.old q + length body.now < 2 ^ 64 }
    ensures { (q : ℕ) → q < length calls.old → slice_index calls.new q ≡ slice_index calls.old q + calls_in q body.now }
{
    for label in body {
        if let Label::Call(rule) = *label {
            calls[rule] += 1;
        }
    }
}

// The first rule but the last that is not called.
pub(crate) fn first_unused(calls: &[u64]) -> Option<usize>
    requires { 0 < length calls.now }
    ensures none { IfNone result ((q : ℕ) → q + 1 < length calls.now → 0 < slice_index calls.now q) }
    ensures some { IfSome result (λ q. (q + 1 < length calls.now) × (slice_index calls.now q ≡ 0) × ((p : ℕ) → p < q → 0 < slice_index calls.now p)) }
{
    for rule in 0..calls.len() - 1 {
        if calls[rule] == 0 {
            return Some(rule);
        }
    }
    None
}

// Counts labels that came in the place of others.
pub(crate) fn recount(calls: &mut Vec<u64>, gone: &[Label], come: &[Label])
    requires gone_there { CallsBelow (length calls.old.items) gone.now }
    requires come_there { CallsBelow (length calls.old.items) come.now }
    requires counted { (q : ℕ) → q < length calls.old.items → calls_in q gone.now ≤ slice_index calls.old.items q }
    requires few { (q : ℕ) → q < length calls.old.items → slice_index calls.old.items q + length come.now < 2 ^ 64 }
    ensures calls { (q : ℕ) → q < length calls.old.items → slice_index calls.new.items q + calls_in q gone.now ≡ slice_index calls.old.items q + calls_in q come.now }
    ensures len { length calls.new.items ≡ length calls.old.items }
    ensures capacity { vec_capacity calls.new ≡ vec_capacity calls.old }
{
    let counts = calls.as_mut_slice();
    drop_calls(counts, gone);
    add_calls(counts, come);
}

// Takes the calls of labels away, which were counted.
pub(crate) fn drop_calls(calls: &mut [u64], labels: &[Label])
    requires there { CallsBelow (length calls.old) labels.now }
    requires counted { (q : ℕ) → q < length calls.old → calls_in q labels.now ≤ slice_index calls.old q }
    ensures { (q : ℕ) → q < length calls.old → slice_index calls.new q + calls_in q labels.now ≡ slice_index calls.old q }
{
    for label in labels {
        if let Label::Call(rule) = *label {
            calls[rule] -= 1;
        }
    }
}

// Takes the calls of a whole term away, which were counted, and answers how many of its nodes are no parameters.
pub(crate) fn drop_term(arena: &Arena, order: &Order, root: Key, calls: &mut [u64]) -> usize
    requires root { IsRoot arena.now root }
    requires known { (ns : List Node) → term_at arena.now root.number ≡ Some ns → AreKnown order.now.order ns }
    requires len { length order.now.order ≡ length calls.old }
    requires counted { (ns : List Node) → term_at arena.now root.number ≡ Some ns → (q : ℕ) → q < length calls.old
        → calls_in q (labels_of (placed order.now.order ns)) ≤ slice_index calls.old q }
    ensures calls { (ns : List Node) → term_at arena.now root.number ≡ Some ns → (q : ℕ) → q < length calls.old
        → slice_index calls.new q + calls_in q (labels_of (placed order.now.order ns)) ≡ slice_index calls.old q }
    ensures real { (ns : List Node) → term_at arena.now root.number ≡ Some ns → result ≡ real_nodes (labels_of (placed order.now.order ns)) }
{
    // The call tells that each term begins with its root, and that nodes are few.
    let _limit = arena.limit();
    let mut nodes = 0;
    let mut params = 0;
    let mut at = Some(root);
    while let Some(key) = at {
        let (label, next) = pass(arena, key);
        let label = place_label(order, label);
        drop_calls(calls, &[label]);
        params += count_params(&[label]);
        nodes += 1;
        at = next;
    }
    nodes - params
}

// Counts the calls of nodes, and answers how many of the nodes are no parameters.
pub(crate) fn add_shapes(calls: &mut [u64], order: &Order, shapes: &[Shape]) -> usize
    requires known { AreKnown order.now.order shapes.now }
    requires len { length order.now.order ≡ length calls.old }
    requires few { (q : ℕ) → q < length calls.old → slice_index calls.old q + length shapes.now < 2 ^ 64 }
    ensures calls { (q : ℕ) → q < length calls.old
        → slice_index calls.new q ≡ slice_index calls.old q + calls_in q (labels_of (placed order.now.order shapes.now)) }
    ensures real { result ≡ real_nodes (labels_of (placed order.now.order shapes.now)) }
{
    let mut params = 0;
    for i in 0..shapes.len() {
        let shape = shapes[i];
        let label = place_label(order, shape.label);
        add_calls(calls, &[label]);
        params += count_params(&[label]);
    }
    shapes.len() - params
}

// Counts the calls of copied nodes, which came in the place of one call, and answers how many of the nodes are no parameters.
pub(crate) fn count_copy(
    calls: &mut Vec<u64>,
    order: &Order,
    shapes: &[Shape],
    rule: usize,
) -> usize
    requires known { AreKnown order.now.order shapes.now }
    requires len { length order.now.order ≡ length calls.old.items }
    requires there { rule < length calls.old.items }
    requires counted { (q : ℕ) → q < length calls.old.items → calls_in q (Call rule ∷ []) ≤ slice_index calls.old.items q }
    requires few { (q : ℕ) → q < length calls.old.items → slice_index calls.old.items q + length shapes.now < 2 ^ 64 }
    ensures calls { (q : ℕ) → q < length calls.old.items → slice_index calls.new.items q + calls_in q (Call rule ∷ [])
        ≡ slice_index calls.old.items q + calls_in q (labels_of (placed order.now.order shapes.now)) }
    ensures len { length calls.new.items ≡ length calls.old.items }
    ensures capacity { vec_capacity calls.new ≡ vec_capacity calls.old }
    ensures real { result ≡ real_nodes (labels_of (placed order.now.order shapes.now)) }
{
    let counts = calls.as_mut_slice();
    let come = add_shapes(counts, order, shapes);
    drop_calls(counts, &[Label::Call(rule)]);
    come
}

// Counts a call that came in the place of a term like the body of its rule, and answers how many of its nodes are no parameters.
pub(crate) fn count_call(
    calls: &mut Vec<u64>,
    arena: &Arena,
    order: &Order,
    root: Key,
    rule: usize,
) -> usize
    requires root { IsRoot arena.now root }
    requires known { (ns : List Node) → term_at arena.now root.number ≡ Some ns → AreKnown order.now.order ns }
    requires len { length order.now.order ≡ length calls.old.items }
    requires there { rule < length calls.old.items }
    requires counted { (ns : List Node) → term_at arena.now root.number ≡ Some ns → (q : ℕ) → q < length calls.old.items
        → calls_in q (labels_of (placed order.now.order ns)) ≤ slice_index calls.old.items q }
    requires few { (q : ℕ) → q < length calls.old.items → slice_index calls.old.items q + 1 < 2 ^ 64 }
    ensures calls { (ns : List Node) → term_at arena.now root.number ≡ Some ns → (q : ℕ) → q < length calls.old.items
        → slice_index calls.new.items q + calls_in q (labels_of (placed order.now.order ns)) ≡ slice_index calls.old.items q + calls_in q (Call rule ∷ []) }
    ensures len { length calls.new.items ≡ length calls.old.items }
    ensures capacity { vec_capacity calls.new ≡ vec_capacity calls.old }
    ensures real { (ns : List Node) → term_at arena.now root.number ≡ Some ns → result ≡ real_nodes (labels_of (placed order.now.order ns)) }
{
    // The call tells that the root has a term.
    let _limit = arena.limit();
    let counts = calls.as_mut_slice();
    let gone = drop_term(arena, order, root, counts);
    add_calls(counts, &[Label::Call(rule)]);
    gone
}
