// Runs over shared rules, by an automaton that tells whether some node is `b`, and hits each `a` whose kids hold a `b` and each `c` below an
// `a`.
ghost use Rattle.slt_grammar.specs.Grammars.{IsSwept};
ghost use Rattle.slt_grammar.specs.Keyed.{rules_of as rules_in};
ghost use Rattle.std.specs.Prelude.{◌≡◌, ◌<◌, IsSome};

use crate::automaton::{A, B, C, Marks};
use plain_tree::Names;
use read_steps::Steps;
use rule_runs::{Answers, FallTable, fall, rise};
use segment_counts::Counts;
use slt_grammar::Label::{self, Bottom, Call, Param, Symbol};
use slt_grammar::{Body, Grammar, RuleList, check};
use std::alloc::{AllocError, Global};
use std::marker::Brand;
use std::sync::ledger::{Blank, Ledger};
use std::test::Fail;

// A rank and the labels of a body.
type Rule = (usize, &'static [Label]);

// Rules, whether some node is `b`, and the numbers and symbols of the nodes that are hit.
struct Row {
    rules: &'static [Rule],
    has_b: bool,
    hits: &'static [u64],
    symbols: &'static [usize],
}

static ROWS: [Row; 3] = [
    // document(a(call(call(call(bottom))), bottom), bottom), where rule 0 is b(bottom, b(bottom, y1))
    Row {
        rules: &[
            (1, &[Symbol(B), Bottom, Symbol(B), Bottom, Param]),
            (
                0,
                &[
                    Symbol(0),
                    Symbol(A),
                    Call(0),
                    Call(0),
                    Call(0),
                    Bottom,
                    Bottom,
                    Bottom,
                ],
            ),
        ],
        has_b: true,
        hits: &[1],
        symbols: &[A],
    },
    // document(a(b, a(b, a(c, bottom))), bottom), where rule 0 is a(b, y1), and of which the third a holds no b
    Row {
        rules: &[
            (1, &[Symbol(A), Symbol(B), Bottom, Bottom, Param]),
            (
                0,
                &[
                    Symbol(0),
                    Call(0),
                    Call(0),
                    Symbol(A),
                    Symbol(C),
                    Bottom,
                    Bottom,
                    Bottom,
                    Bottom,
                ],
            ),
        ],
        has_b: true,
        hits: &[1, 3, 6],
        symbols: &[A, A, C],
    },
    // document(a, bottom)
    Row {
        rules: &[(0, &[Symbol(0), Symbol(A), Bottom, Bottom, Bottom])],
        has_b: false,
        hits: &[],
        symbols: &[],
    },
];

fn rules_of(alloc: Global, rules: &[Rule]) -> Result<RuleList, AllocError> {
    let mut list = RuleList::new(alloc);
    for &(rank, labels) in rules {
        let mut body = Body::new(alloc);
        for label in labels {
            body.push(*label)?;
        }
        list.push(rank, body)?;
    }
    Ok(list)
}

// What runs find: whether some node is `b`, how many nodes are hit, and their numbers and symbols.
#[derive(Drop)]
struct Found {
    has_b: bool,
    count: u64,
    numbers: Vec<u64>,
    symbols: Vec<usize>,
}

fn find<L: Ledger>(alloc: Global, grammar: &Grammar, blank: Blank) -> Result<Found, Fail>
    requires swept { IsSwept (rules_in grammar.now.rules) }
    requires name { blank.name ≡ L.name }
    requires parts { blank.parts ≡ L.parts }
    requires some { 0 < blank.parts }
{
    // The counts tell that the value has few nodes.
    let _counts = Counts::new(alloc, grammar, &Names::new(alloc))?;
    let mut steps: Steps<L> = Steps::new(blank);
    let risen = rise(alloc, grammar, &Marks, true, &mut steps)?;
    let fallen = fall(alloc, grammar, &Marks, &risen, None, true, &mut steps)?;
    Ok(Found {
        has_b: risen.top().has_b,
        count: fallen.count(),
        numbers: list_numbers(alloc, &fallen)?,
        symbols: list_symbols(alloc, &fallen)?,
    })
}

// The numbers of all answers, of which each second one is asked for its number alone, and one more answer behind the last.
fn list_numbers(alloc: Global, fallen: &FallTable) -> Result<Vec<u64>, AllocError>
    requires { IsSome fallen.now.hits }
{
    let mut numbers = Vec::new(alloc);
    let mut answers = Answers::new(alloc, fallen)?;
    for _pair in 0..fallen.count().saturating_add(1) {
        if let Some(number) = answers.next()? {
            numbers.push(number)?;
        }
        if let Some(hit) = answers.next_hit()? {
            numbers.push(hit.number)?;
        }
    }
    Ok(numbers)
}

// The symbols of all answers, where those that are alike are told at once.
fn list_symbols(alloc: Global, fallen: &FallTable) -> Result<Vec<usize>, AllocError>
    requires { IsSome fallen.now.hits }
{
    let mut symbols = Vec::new(alloc);
    let mut answers = Answers::new(alloc, fallen)?;
    for _one in 0..fallen.count().saturating_add(1) {
        if let Some(hits) = answers.next_alike()? {
            for _hit in 0..hits.count {
                symbols.push(hits.symbol)?;
            }
        }
    }
    Ok(symbols)
}

#[test]
fn runs_find_what_their_rows_say(rt: HostRuntime) -> Result<(), Fail> {
    for (at, row) in ROWS.iter().enumerate() {
        let grammar = check(rt.alloc(), rules_of(rt.alloc(), row.rules)?)?;
        let found = find::<Brand>(rt.alloc(), &grammar, Blank::new(1))?;
        let is_right = found.has_b == row.has_b
            && found.count == row.hits.len() as u64
            && found.numbers.as_slice() == row.hits
            && found.symbols.as_slice() == row.symbols;
        assert!(rt; is_right, "row {at}");
    }
    Ok(())
}
