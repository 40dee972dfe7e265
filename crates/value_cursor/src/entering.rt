// Where the segments of a rule begin.
ghost use Rattle.std.specs.Prelude.{◌≡◌, ◌<◌, ℕ, List, [], ◌∷◌, length, IfNone, IfSome};
ghost use Rattle.rule_arena.specs.Terms.{Node};
ghost use Rattle.slt_grammar.specs.Keyed.{IsKeyed, rules_of};
ghost use Rattle.slt_grammar.specs.Segments.{preorder, segment};
ghost use Rattle.slt_grammar.specs.Tours.{Stop};
ghost use Rattle.slt_grammar.specs.TourWalks.{StandsBefore, StandsBehindSkipped, StandsNext};
ghost use Rattle.value_cursor.specs.Stops.{IsAtStop, later_params, segment_left, stops_of};

use preorder_address::RuleStop;
use read_steps::Steps;
use slt_grammar::{Grammar, Label, TourWalk};
use std::sync::ledger::Ledger;

// The first stop of a segment of a rule, and None where the segment has none.
pub(crate) fn segment_start<L: Ledger>(
    grammar: &Grammar,
    rule: usize,
    part: usize,
    steps: &mut Steps<L>,
) -> Option<RuleStop>
    requires keyed { IsKeyed grammar.now }
    requires rule { rule < length grammar.now.rules }
    ensures rule { IfSome result (λ stop. stop.rule ≡ rule) }
    ensures at { IfSome result (IsAtStop grammar.now.rules) }
    ensures some { IfSome result (λ stop. segment_left grammar.now.rules (stops_of grammar.now.rules stop) ≡ segment part (preorder (rules_of grammar.now.rules) rule)) }
    ensures none { IfNone result (segment part (preorder (rules_of grammar.now.rules) rule) ≡ []) }
{
    let mut walk = TourWalk::new(grammar, rule);
    // How many parameters are still before the segment.
    let mut params = part;
    while params > 0 {
        let label = grammar.label(walk.key, steps);
        params = params_behind(label, params);
        if !advance_past(&mut walk, grammar, params, steps) {
            return None;
        }
    }
    Some(RuleStop { rule, walk })
}

// Goes to the next stop; where parameters are still before the segment, past stops behind children, which stand for none. It answers
// whether there is such a stop.
fn advance_past<L: Ledger>(
    walk: &mut TourWalk,
    grammar: &Grammar,
    params: usize,
    steps: &mut Steps<L>,
) -> bool
    requires there { (r : ℕ) × (left : List (Stop Node)) × StandsBefore grammar.now.rules r walk.old left }
    ensures next { params ≡ 0 → (r : ℕ) (here : Stop Node) (left : List (Stop Node)) → StandsBefore grammar.now.rules r walk.old (here ∷ left)
        → StandsNext result grammar.now.rules r walk.new left }
    ensures past { 0 < params → (r : ℕ) (here : Stop Node) (left : List (Stop Node)) → StandsBefore grammar.now.rules r walk.old (here ∷ left)
        → StandsBehindSkipped result grammar.now.rules r walk.new left }
{
    if params > 0 {
        return walk.advance_to_node(grammar, steps);
    }
    let site = grammar.site(walk.key, steps);
    walk.advance(grammar, &site, steps)
}

// How many of these parameters are behind a stop with this label, which may be the first of them.
fn params_behind(label: Label, params: usize) -> usize
    requires { 0 < params }
    ensures { result ≡ later_params label params }
{
    match label {
        Label::Param => params - 1,
        _ => params,
    }
}
