// The nodes whose occurrences a fold changes.
ghost use Rattle.std.specs.Prelude.{◌≡◌, ◌≢◌, ◌+◌, ◌≤◌, ℕ, Some, None, length, slice_get};
ghost use Rattle.rule_arena.specs.Terms.{Apart, kids_in};
ghost use Rattle.rule_arena.specs.declared.key.Key.{Key};
ghost use Rattle.slt_grammar.specs.Keyed.{nodes_at};
ghost use Rattle.slt_grammar.specs.KeyedEdits.{FoldsInto, Stands};
ghost use Rattle.digram_index.specs.Linked.{cell};
ghost use Rattle.digram_index.specs.Marking.{MarksFewer};
ghost use Rattle.digram_index.specs.Partly.{IsPartOf, IsRight};
ghost use Rattle.pair_replace.specs.Near.{IsAround, AreAround};

use digram_index::{Index, item, link_node, unlink_kids, unlink_node};
use slt_grammar::{Grammar, Key, Kids};

// A node, its parent, and the children of both: the node is among those of its parent.
#[derive(Drop)]
pub(crate) struct Near {
    pub(crate) upper: Key,
    pub(crate) lower: Key,
    pub(crate) siblings: Kids,
    pub(crate) children: Kids,
}

// What is near a node that folds into its parent.
pub(crate) fn near_nodes(grammar: &Grammar, lower: Key) -> Near
    requires { (q : ℕ) × FoldsInto grammar.now.rules lower q }
    ensures upper { (q : ℕ) (F : FoldsInto grammar.now.rules lower q) → result.upper ≡ F.upper }
    ensures lower { result.lower ≡ lower }
    ensures siblings { (q : ℕ) (F : FoldsInto grammar.now.rules lower q) → result.siblings ≡ kids_in (nodes_at grammar.now.rules F.here.rule) F.place }
    ensures children { (q : ℕ) (F : FoldsInto grammar.now.rules lower q) → result.children ≡ kids_in (nodes_at grammar.now.rules F.here.rule) F.here.place }
{
    let _limit = grammar.limit();
    let low = item(grammar, lower);
    let (upper, _) = low.parent.unwrap();
    let high = item(grammar, upper);
    Near {
        upper,
        lower,
        siblings: high.kids,
        children: low.kids,
    }
}

// Takes away the occurrences of the near nodes. It takes no memory.
pub(crate) fn unlink_near(index: &mut Index, near: &Near)
    ensures free { (n : ℕ) → IsAround near.now.upper near.now.siblings near.now.children n → cell index.new n ≡ None }
    ensures others { (n : ℕ) → (IsAround near.now.upper near.now.siblings near.now.children n → ⊥) → cell index.new n ≡ cell index.old n }
    ensures stays { (n : ℕ) → cell index.old n ≡ None → cell index.new n ≡ None }
    ensures rules { index.new.rules ≡ index.old.rules }
    ensures room { length index.new.cells ≡ length index.old.cells }
    ensures spares { (index.new.spare_links ≡ index.old.spare_links) × (index.new.spare_rules ≡ index.old.spare_rules) }
    ensures marks { MarksFewer index.old index.new }
{
    unlink_node(index, near.upper);
    unlink_kids(index, &near.siblings);
    unlink_kids(index, &near.children);
}

// Links these nodes of the grammar but for one, which may be gone.
fn link_kids(index: &mut Index, grammar: &Grammar, kids: &Kids, gone: Key)
    requires part { IsPartOf grammar.now index.old }
    requires there { AreAround grammar.now.rules kids.now gone }
    requires room { length kids.now ≤ index.old.spare_links }
    requires cells { grammar.now.limit ≤ length index.old.cells }
    ensures part { IsPartOf grammar.now index.new }
    ensures linked { (i : ℕ) (k : Key) → slice_get kids.now i ≡ Some k → k ≢ gone → IsRight grammar.now.rules index.new k }
    ensures kept { (k : Key) → IsRight grammar.now.rules index.old k → IsRight grammar.now.rules index.new k }
    ensures others { (n : ℕ) → Apart kids.now n → cell index.new n ≡ cell index.old n }
    ensures gone { cell index.new gone.number ≡ cell index.old gone.number }
    ensures cells { length index.old.cells ≤ length index.new.cells }
    ensures spare { index.old.spare_links ≤ index.new.spare_links + length kids.now }
    ensures spare_rules { index.new.spare_rules ≡ index.old.spare_rules }
    ensures marks { MarksFewer index.old index.new }
{
    for i in 0..kids.len() {
        let key = kids.get(i).unwrap();
        if key != gone {
            link_node(index, grammar, key);
        }
    }
}

// Links the near nodes but the lower one, which is gone. It takes no memory where there is room for 17 occurrences.
pub(crate) fn link_near(index: &mut Index, grammar: &Grammar, near: &Near)
    requires part { IsPartOf grammar.now index.old }
    requires upper { Stands grammar.now.rules near.now.upper }
    requires siblings { AreAround grammar.now.rules near.now.siblings near.now.lower }
    requires children { AreAround grammar.now.rules near.now.children near.now.lower }
    requires room { 17 ≤ index.old.spare_links }
    requires cells { grammar.now.limit ≤ length index.old.cells }
    ensures part { IsPartOf grammar.now index.new }
    ensures linked { (k : Key) → IsAround near.now.upper near.now.siblings near.now.children k.number → k ≢ near.now.lower → IsRight grammar.now.rules index.new k }
    ensures others { (n : ℕ) → (IsAround near.now.upper near.now.siblings near.now.children n → ⊥) → cell index.new n ≡ cell index.old n }
    ensures cells { length index.old.cells ≤ length index.new.cells }
    ensures spare { index.old.spare_links ≤ index.new.spare_links + 17 }
    ensures spare_rules { index.new.spare_rules ≡ index.old.spare_rules }
    ensures marks { MarksFewer index.old index.new }
{
    let _siblings = near.siblings.len();
    let _children = near.children.len();
    link_node(index, grammar, near.upper);
    link_kids(index, grammar, &near.siblings, near.lower);
    link_kids(index, grammar, &near.children, near.lower);
}
