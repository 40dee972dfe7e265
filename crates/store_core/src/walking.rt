// The walk over the tokens of a node.
ghost use Rattle.std.specs.Prelude.{◌≡◌, ◌↔◌, ◌<◌, ◌≤◌, ◌^◌, ℕ, [], sum_by, IsSome, IfSome, IfOk};
ghost use Rattle.slt_grammar.specs.Grammars.{value};
ghost use Rattle.slt_grammar.specs.Keyed.{rules_of};
ghost use Rattle.slt_grammar.specs.Segments.{listed};
ghost use Rattle.segment_counts.specs.Weights.{node_weight};
ghost use Rattle.value_cursor.specs.Cursors.{BeginsAtNode, IsInside, tokens_of};
ghost use Rattle.store_core.specs.StoreOf.{IsCounted, parts_of};
ghost use Rattle.store_core.specs.Walking.{AreEnough, GoesAnywhere, HasRoom, IsReady, open_after};
ghost use Rattle.store_core.specs.Worlds.{AreLawfulParts};

use read_steps::Steps;
use slt_grammar::Grammar;
use std::alloc::{AllocError, Global};
use std::sync::ledger::Ledger;
use tree_updates::Store;
use value_cursor::{Cursor, Token, most_open};

// Where a walk along tokens stands: the symbols of the nodes that are open, the innermost last, and how many texts were used.
#[derive(Drop)]
pub(crate) struct TokenPlace {
    pub(crate) outer: Vec<usize>,
    pub(crate) used: u64,
}

/// A walk over a node and the nodes below it. It holds all the memory that their writing takes.
#[derive(Drop)]
pub(crate) struct NodeWalk {
    pub(crate) cursor: Cursor,
    pub(crate) place: TokenPlace,
}

impl NodeWalk {
    /// A walk that begins at the node with this number, whose texts begin at the place `first_text`, and None exactly where the
    /// number isn't below the count of nodes. It is refused only for want of memory.
    pub(crate) fn new<L: Ledger>(
        alloc: Global,
        store: &Store,
        number: u64,
        first_text: u64,
        steps: &mut Steps<L>,
    ) -> Result<Option<NodeWalk>, AllocError>
        requires { IsCounted store.now }
        ensures some { IfOk result (λ found. IsSome found ↔ number < sum_by node_weight (listed (value (rules_of store.now.grammar.rules)) [])) }
        ensures ready { IfOk result (λ found. IfSome found (IsReady store.now)) }
        ensures begins { IfOk result (λ found. IfSome found (λ w. BeginsAtNode store.now.grammar.rules number w.cursor)) }
        ensures texts { IfOk result (λ found. IfSome found (λ w. w.place.used ≡ first_text)) }
    {
        let Some(cursor) = Cursor::new(alloc, &store.grammar, &store.counts, number, steps)? else {
            return Ok(None);
        };
        let places = enough_places(alloc, store, number, steps)?;
        let outer = Vec::with_capacity(alloc, places)?;
        let place = TokenPlace {
            outer,
            used: first_text,
        };
        Ok(Some(NodeWalk { cursor, place }))
    }

    /// A walk that may begin anew at any node. It is refused only for want of memory.
    pub(crate) fn anywhere<L: Ledger>(
        alloc: Global,
        store: &Store,
        steps: &mut Steps<L>,
    ) -> Result<NodeWalk, AllocError>
        requires held { AreLawfulParts (parts_of store.now) }
        requires counted { IsCounted store.now }
        ensures { IfOk result (GoesAnywhere store.now) }
    {
        let places = places_anywhere(alloc, store, steps)?;
        let outer = Vec::with_capacity(alloc, places)?;
        let place = TokenPlace { outer, used: 0 };
        match Cursor::new(alloc, &store.grammar, &store.counts, 0, steps)? {
            Some(cursor) => Ok(NodeWalk { cursor, place }),
            // A document has a node.
            None => unreachable!(),
        }
    }
}

// So many places for open nodes are enough for a walk from the node with this number. It is refused only for want of memory.
//
// Where there may be far more nodes than memory, a walk ahead finds how many are open at once below a node, which may be small.
fn enough_places<L: Ledger>(
    alloc: Global,
    store: &Store,
    number: u64,
    steps: &mut Steps<L>,
) -> Result<usize, AllocError>
    requires { IsCounted store.now }
    ensures { IfOk result (AreEnough store.now number) }
{
    if number == 0 || store.counts.total() <= store.grammar.size() {
        return places_anywhere(alloc, store, steps);
    }
    match Cursor::new(alloc, &store.grammar, &store.counts, number, steps)? {
        Some(ahead) => Ok(deepest(&store.grammar, ahead, steps)),
        // No node has this number.
        None => Ok(0),
    }
}

// So many places for open nodes are enough for a walk from any node. It is refused only for want of memory.
//
// Where the value has no more nodes than the rules, as where little repeats, each gets a place: that takes fewer bytes than the
// rules do, and no time. Else a pass over the rules finds how many are open at once.
fn places_anywhere<L: Ledger>(
    alloc: Global,
    store: &Store,
    steps: &mut Steps<L>,
) -> Result<usize, AllocError>
    requires { IsCounted store.now }
    ensures { IfOk result (λ places. (number : ℕ) → AreEnough store.now number places) }
{
    // The call tells what is true of every grammar.
    let _limit = store.grammar.limit();
    let nodes = store.counts.total();
    if nodes <= store.grammar.size() {
        return Ok(nodes as usize);
    }
    most_open(alloc, &store.grammar, &store.counts, steps)
}

// How many nodes are open at once at most while the cursor gives its tokens.
fn deepest<L: Ledger>(grammar: &Grammar, mut cursor: Cursor, steps: &mut Steps<L>) -> usize
    requires { IsInside grammar.now.rules cursor }
    ensures { HasRoom result 0 (tokens_of grammar.now.rules cursor) }
{
    let mut depth = 0;
    let mut most = 0;
    while let Some(token) = cursor.next(grammar, steps) {
        depth = depth_behind(depth, token);
        most = larger(most, depth);
    }
    most
}

// The larger of two depths.
fn larger(first: usize, second: usize) -> usize
    ensures first { first ≤ result }
    ensures second { second ≤ result }
{
    if first < second { second } else { first }
}

// How many nodes are open behind a token.
fn depth_behind(depth: usize, token: Token) -> usize
    requires { open_after depth token < 2 ^ 64 }
    ensures { result ≡ open_after depth token }
{
    match token {
        Token::Open { .. } => depth + 1,
        Token::Close => depth.saturating_sub(1),
    }
}
