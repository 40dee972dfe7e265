// Grammars whose rules lie in an arena.
ghost use Rattle.std.specs.Prelude.{◌≡◌, ◌+◌, ◌<◌, ◌≤◌, ℕ, Some, length};

use crate::bodies::{body_of, rank_of};
use crate::body_walk::BodyWalk;
use crate::building::build_body;
use crate::counting::count_nodes;
use crate::order::{Order, place_label};
use crate::rules::Rule;
use crate::shape::Shape;
use read_steps::Steps;
use rule_arena::{Arena, Item, Key, Label, Site};
use std::alloc::{AllocError, Global};
use std::marker::Model;
use std::sync::ledger::Ledger;

/// A straight-line linear grammar.
///
/// It is seen as its rules, whose nodes carry their keys, beside the numbers of nodes and rules for which there is room, and a
/// number above those of all nodes.
pub struct Grammar {
    pub(crate) arena: Arena,
    // The root, the rank and the number of calls of each rule, by its place.
    pub(crate) roots: Vec<Key>,
    pub(crate) ranks: Vec<usize>,
    pub(crate) calls: Vec<u64>,
    // The nodes hold identities of the rules that they call, so that no node is written where a rule gets another place.
    pub(crate) order: Order,
    pub(crate) size: u64,
    // Room for the reading and the copying of a body.
    pub(crate) shapes: Vec<Shape>,
    pub(crate) stack: Vec<Key>,
}

impl Drop for Grammar {
    fn drop(self) {
        let Grammar {
            arena: _arena,
            roots: _roots,
            ranks: _ranks,
            calls: _calls,
            order: _order,
            size: _size,
            shapes: _shapes,
            stack: _stack,
        } = self;
    }
}

impl Model for Grammar {
    ghost use Rattle.std.specs.Prelude.{◌-◌, min, length, vec_capacity, vec_len};
    ghost use Rattle.slt_grammar.specs.Keyed.{Keyed};

    ghost Value = { Keyed };

    ghost use Rattle.slt_grammar.specs.Holding.{seen, terms_of, IsKept};

    ghost view = { λ g. record {
      rules = seen g.order.order g.ranks.items (terms_of g.arena g.roots.items);
      spare_nodes = min g.arena.spare (min (vec_capacity g.shapes) (length g.stack.items));
      spare_rules = min g.order.spare (min (vec_capacity g.roots - vec_len g.roots) (min (vec_capacity g.ranks - vec_len g.ranks) (vec_capacity g.calls - vec_len g.calls)));
      limit = g.arena.limit;
    } };

    ghost invariant = { λ g. IsKept g.arena g.roots.items g.ranks.items g.calls.items g.order.order g.size };
}

impl Grammar {
    ghost use Rattle.rule_arena.specs.Preorder.{subterm};
    ghost use Rattle.rule_arena.specs.Terms.{Node, kids_in, kids_of, parent_in};
    ghost use Rattle.std.specs.Prelude.{slice_get, slice_index, ◌^◌, IfOk};
    ghost use Rattle.slt_grammar.specs.Grammars.{body_at, calls_of, rank_at, size, whole, IsGrammar};
    ghost use Rattle.slt_grammar.specs.Keyed.{IsKeyed, key_at, nodes_at, rules_of};

    // The grammar of these rules, whose labels and calls were counted.
    pub(crate) fn build(
        alloc: Global,
        rules: &[Rule],
        labels: usize,
        calls: &[u64],
    ) -> Result<Grammar, AllocError>
        requires grammar { IsGrammar rules.now }
        requires labels { labels ≡ whole rules.now }
        requires few { labels < 2 ^ 63 }
        requires len { length calls.now ≡ length rules.now }
        requires calls { (q : ℕ) → q < length rules.now → slice_index calls.now q ≡ calls_of rules.now q }
        ensures { IfOk result (λ g. rules_of g.rules ≡ rules.now) }
    {
        let mut arena = Arena::new(alloc);
        arena.reserve(labels)?;
        let mut stack = vec![in alloc; Key::default(); labels]?;
        let order = Order::of(alloc, rules.len())?;
        let mut roots = Vec::with_capacity(alloc, rules.len())?;
        let mut ranks = Vec::with_capacity(alloc, rules.len())?;
        let mut counts = Vec::with_capacity(alloc, rules.len())?;
        for rule in 0..rules.len() {
            let body = body_of(rules, rule);
            let root = build_body(&mut arena, rules, body, stack.as_mut_slice());
            roots.push(root)?;
            ranks.push(rank_of(rules, rule))?;
            counts.push(calls[rule])?;
        }
        Ok(Grammar {
            arena,
            roots,
            ranks,
            calls: counts,
            order,
            size: count_nodes(rules) as u64,
            shapes: Vec::new(alloc),
            stack,
        })
    }

    /// How many rules there are.
    pub fn rules(&self) -> usize
        ensures value { result ≡ length self.now.rules }
        ensures grammar { IsGrammar (rules_of self.now.rules) }
    {
        self.roots.len()
    }

    /// How many parameters a rule has.
    pub fn rank(&self, rule: usize) -> usize
        requires { rule < length self.now.rules }
        ensures { result ≡ rank_at (rules_of self.now.rules) rule }
    {
        self.ranks[rule]
    }

    /// How often a rule is called, in all bodies together.
    pub fn calls(&self, rule: usize) -> u64
        requires { rule < length self.now.rules }
        ensures { result ≡ calls_of (rules_of self.now.rules) rule }
    {
        self.calls[rule]
    }

    /// How many nodes all bodies have, without parameters.
    pub fn size(&self) -> u64
        ensures { result ≡ size (rules_of self.now.rules) }
    {
        self.size
    }

    /// The root of a rule's body.
    pub fn root(&self, rule: usize) -> Key
        requires { rule < length self.now.rules }
        ensures { key_at self.now.rules rule 0 ≡ Some result }
    {
        // The call tells that each term begins with its root.
        let _limit = self.arena.limit();
        self.roots[rule]
    }

    /// What stands at a node. One step.
    pub fn item<L: Ledger>(&self, key: Key, steps: &mut Steps<L>) -> Item
        requires { (r : ℕ) × (p : ℕ) × (key_at self.now.rules r p ≡ Some key) }
        ensures node { (r p : ℕ) → key_at self.now.rules r p ≡ Some key → slice_get (nodes_at self.now.rules r) p
            ≡ Some (record { key = key; label = result.label; kids = length result.kids }) }
        ensures parent { (r p : ℕ) → key_at self.now.rules r p ≡ Some key → parent_in (nodes_at self.now.rules r) p ≡ result.parent }
        ensures kids { (r p : ℕ) → key_at self.now.rules r p ≡ Some key → kids_in (nodes_at self.now.rules r) p ≡ result.kids }
        ensures step { steps.new ≡ steps.old + 1 }
    {
        let item = self.arena.item(key, steps);
        Item {
            label: place_label(&self.order, item.label),
            parent: item.parent,
            kids: item.kids,
        }
    }

    /// What stands at a node, without the keys of its children. One step.
    pub fn site<L: Ledger>(&self, key: Key, steps: &mut Steps<L>) -> Site
        requires { (r : ℕ) × (p : ℕ) × (key_at self.now.rules r p ≡ Some key) }
        ensures node { (r p : ℕ) → key_at self.now.rules r p ≡ Some key → slice_get (nodes_at self.now.rules r) p
            ≡ Some (record { key = key; label = result.label; kids = result.arity }) }
        ensures parent { (r p : ℕ) → key_at self.now.rules r p ≡ Some key → parent_in (nodes_at self.now.rules r) p ≡ result.parent }
        ensures few { result.arity ≤ 8 }
        ensures step { steps.new ≡ steps.old + 1 }
    {
        let site = self.arena.site(key, steps);
        Site {
            label: place_label(&self.order, site.label),
            ..site
        }
    }

    /// The label of a node. One step.
    pub fn label<L: Ledger>(&self, key: Key, steps: &mut Steps<L>) -> Label
        requires { (r : ℕ) × (p : ℕ) × (key_at self.now.rules r p ≡ Some key) }
        ensures node { (r p : ℕ) → key_at self.now.rules r p ≡ Some key → (n : ℕ)
            × (slice_get (nodes_at self.now.rules r) p ≡ Some (record { key = key; label = result; kids = n })) }
        ensures step { steps.new ≡ steps.old + 1 }
    {
        place_label(&self.order, self.arena.label(key, steps))
    }

    /// The next node of the same body in preorder, and none behind the last one. One step.
    pub fn next_in_preorder<L: Ledger>(&self, key: Key, steps: &mut Steps<L>) -> Option<Key>
        requires { (r : ℕ) × (p : ℕ) × (key_at self.now.rules r p ≡ Some key) }
        ensures next { (r p : ℕ) → key_at self.now.rules r p ≡ Some key → key_at self.now.rules r (p + 1) ≡ result }
        ensures step { steps.new ≡ steps.old + 1 }
    {
        self.arena.next_in_preorder(key, steps)
    }

    // The next node of the same body, in preorder, behind all that stands below a node. One step.
    pub(crate) fn next_past_term<L: Ledger>(&self, key: Key, steps: &mut Steps<L>) -> Option<Key>
        requires { (r : ℕ) × (p : ℕ) × (key_at self.now.rules r p ≡ Some key) }
        ensures next { (r p : ℕ) → key_at self.now.rules r p ≡ Some key
            → key_at self.now.rules r (p + length (subterm kids_of (nodes_at self.now.rules r) p)) ≡ result }
        ensures step { steps.new ≡ steps.old + 1 }
    {
        self.arena.next_past_term(key, steps)
    }

    /// A walk over the labels of a rule's body.
    pub fn walk(&self, rule: usize) -> BodyWalk<'_>
        requires { rule < length self.now.rules }
        ensures { result ≡ body_at (rules_of self.now.rules) rule }
    {
        BodyWalk::new(self, rule)
    }

    /// Above the number of every node's key.
    pub fn limit(&self) -> usize
        ensures value { result ≡ self.now.limit }
        ensures keyed { IsKeyed self.now }
    {
        self.arena.limit()
    }
}
