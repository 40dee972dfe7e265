// Labels by the numbers of the rules that they call.
ghost use Rattle.std.specs.Prelude.{◌≡◌, ◌<◌, ◌≤◌, ℕ, length, MatchBool};
ghost use Rattle.slt_grammar.specs.Names.{Call};
ghost use Rattle.digram_index.specs.Linked.{label_of, IsKnown};
ghost use Rattle.digram_index.specs.declared.patterns.Mark.TheVariants.{Call as CallMark};

use crate::numbers::Numbers;
use crate::patterns::Mark;
use slt_grammar::Label;

// Whether a label is no call, or one of a rule that the index knows.
pub(crate) fn is_known(numbers: &Numbers, label: Label) -> bool
    ensures { MatchBool result ((q : ℕ) → label ≡ Call q → q < length numbers.now.numbers) ((q : ℕ) × ((label ≡ Call q) × (length numbers.now.numbers ≤ q))) }
{
    match label {
        Label::Call(rule) => rule < numbers.len(),
        _ => true,
    }
}

// The label of a mark.
pub(crate) fn label(numbers: &Numbers, mark: Mark) -> Label
    requires { IsKnown numbers.now.numbers mark }
    ensures { result ≡ label_of numbers.now.numbers mark }
{
    match mark {
        Mark::Bottom => Label::Bottom,
        Mark::Symbol(symbol) => Label::Symbol(symbol),
        Mark::Call(number) => Label::Call(numbers.place(number).unwrap()),
        Mark::Param => Label::Param,
    }
}

// A label by the number of its rule.
pub(crate) fn mark_of(numbers: &Numbers, label: Label) -> Mark
    requires { (q : ℕ) → label ≡ Call q → q < length numbers.now.numbers }
    ensures label { label_of numbers.now.numbers result ≡ label }
    ensures known { IsKnown numbers.now.numbers result }
    ensures below { (n : ℕ) → result ≡ CallMark n → n < numbers.now.given }
{
    match label {
        Label::Bottom => Mark::Bottom,
        Label::Symbol(symbol) => Mark::Symbol(symbol),
        Label::Call(rule) => Mark::Call(numbers.number(rule)),
        Label::Param => Mark::Param,
    }
}
