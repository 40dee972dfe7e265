// A node of the code that comes once more before itself, over the same.
ghost use Rattle.std.specs.Prelude.{◌≡◌, ◌<◌, ◌≤◌, ◌+◌, ◌-◌, ◌*◌, ℕ, List, IfOk, length};
ghost use Rattle.plain_tree.specs.declared.kind.Kind.{Kind};
ghost use Rattle.slt_grammar.specs.Grammars.{size};
ghost use Rattle.slt_grammar.specs.Keyed.{rules_of};
ghost use Rattle.slt_grammar.specs.Names.{Call};
ghost use Rattle.slt_grammar.specs.Ranks.{greatest_rank};
ghost use Rattle.digram_index.specs.Linked.{IsIndexOf};
ghost use Rattle.path_isolation.specs.Isolations.{room_along};
ghost use Rattle.preorder_address.specs.Spots.{IsSpot};
ghost use Rattle.tree_updates.specs.Copies.{IsTwinBody, SharesBelow};
ghost use Rattle.tree_updates.specs.Fronts.{IsSameBeforeFirst};

use crate::isolating::isolate_node;
use digram_index::{Index, following};
use linked_edits::{share_linked, wrap_linked};
use preorder_address::Spot;
use read_steps::Steps;
use slt_grammar::{Body, Grammar, Label};
use std::alloc::{AllocError, Global};
use std::sync::ledger::Ledger;

// A symbol over a child, with a parameter for what is to follow.
pub(crate) fn twin_body(alloc: Global, symbol: usize, child: Label) -> Result<Body, AllocError>
    ensures { IfOk result (IsTwinBody symbol child) }
{
    let mut body = Body::new(alloc);
    body.push(Label::Symbol(symbol))?;
    body.push(child)?;
    body.push(Label::Param)?;
    Ok(body)
}

// Makes what is below the spot's node a rule of its own, just before the start, and puts a symbol over a call of that rule before the node. There
// is room for the nodes of the bodies of the spot's levels behind the first and for four more, for as many links, and for a rule, so it takes no
// memory. Rules that nobody calls any more stay.
pub(crate) fn wrap_shared<L: Ledger>(
    grammar: &mut Grammar,
    index: &mut Index,
    spot: &Spot,
    body: &Body,
    steps: &mut Steps<L>,
)
    requires spot { (names : List (Kind × List ℕ)) × (number : ℕ) × IsSpot names grammar.old.rules number spot.now }
    requires body { (symbol : ℕ) × IsTwinBody symbol (Call (length grammar.old.rules - 1)) body.now }
    requires index { IsIndexOf grammar.old index.old }
    requires nodes { room_along grammar.old.rules spot.now.levels.items + 4 ≤ grammar.old.spare_nodes }
    requires rule { 0 < grammar.old.spare_rules }
    requires links { room_along grammar.old.rules spot.now.levels.items + 4 ≤ index.old.spare_links }
    requires number { 0 < index.old.spare_rules }
    requires cells { grammar.old.limit ≤ length index.old.cells }
    ensures value { (names : List (Kind × List ℕ)) (number symbol : ℕ) → IsSpot names grammar.old.rules number spot.now
        → IsTwinBody symbol (Call (length grammar.old.rules - 1)) body.now
        → SharesBelow (rules_of grammar.old.rules) (rules_of grammar.new.rules) (length grammar.old.rules - 1) number symbol }
    ensures size { size (rules_of grammar.new.rules) ≤ 2 * size (rules_of grammar.old.rules) + 3 }
    ensures ranks { greatest_rank (rules_of grammar.new.rules) ≤ greatest_rank (rules_of grammar.old.rules) }
    ensures index { IsIndexOf grammar.new index.new }
    ensures front { IsSameBeforeFirst spot.now.levels.items grammar.old.rules grammar.new.rules }
{
    let at = isolate_node(grammar, index, spot, steps);
    // The calls tell what is true of every grammar.
    let _apart = grammar.limit();
    let child = following(grammar, at).unwrap();
    let _call = share_linked(grammar, index, child);
    let _shared = grammar.limit();
    wrap_linked(grammar, index, at, body);
}
