// Scans of one rule's body.
ghost use Rattle.std.specs.Prelude.{◌≡◌, ◌↔◌, ◌<◌, ◌≤◌, ℕ, length, get_or, IsTrue};
ghost use Rattle.slt_grammar.specs.Algebras.{ranks_of};
ghost use Rattle.slt_grammar.specs.Bodies.{arity, params, real_nodes, CallsBelow, IsTerm};
ghost use Rattle.slt_grammar.specs.Grammars.{body_at, rank_at};

use crate::rules::Rule;
use rule_arena::Label;

// A rule's labels.
pub(crate) fn body_of(rules: &[Rule], rule: usize) -> &[Label]
    requires { rule < length rules.now }
    ensures { result.now ≡ body_at rules.now rule }
{
    rules[rule].body.as_slice()
}

// A rule's rank.
pub(crate) fn rank_of(rules: &[Rule], rule: usize) -> usize
    requires { rule < length rules.now }
    ensures { result ≡ rank_at rules.now rule }
{
    rules[rule].rank
}

// How many children a node with this label has.
pub(crate) fn arity_of(rules: &[Rule], label: Label) -> usize
    ensures { result ≡ arity (ranks_of rules.now) label }
{
    match label {
        Label::Bottom => 0,
        Label::Symbol(_) => 2,
        Label::Call(rule) => rules.get(rule).map_or(0, |r| r.rank),
        Label::Param => 0,
    }
}

// Whether all calls name rules below `rule`.
pub(crate) fn calls_earlier(rule: usize, body: &[Label]) -> bool
    ensures { IsTrue result ↔ CallsBelow rule body.now }
{
    for label in body {
        if let Label::Call(called) = *label {
            if called >= rule {
                return false;
            }
        }
    }
    true
}

// Whether the labels are exactly one term, where the calls name rules below `rule`.
pub(crate) fn is_one_term(rules: &[Rule], rule: usize, body: &[Label]) -> bool
    requires earlier { CallsBelow rule body.now }
    requires small { (q : ℕ) → q < rule → get_or (ranks_of rules.now) q 0 ≤ 8 }
    ensures { IsTrue result ↔ IsTerm (ranks_of rules.now) body.now }
{
    let mut open: usize = 1;
    for (i, label) in body.iter().enumerate() {
        // Each term that is still to come has a label at least, so the number of open terms stays small.
        if open == 0 || open > body.len() - i {
            return false;
        }
        open = open - 1 + arity_of(rules, *label);
    }
    open == 0
}

// How many parameters there are.
pub(crate) fn count_params(body: &[Label]) -> usize
    ensures { result ≡ params body.now }
{
    let mut count = 0;
    for label in body {
        if let Label::Param = *label {
            count += 1;
        }
    }
    count
}
