// Descents to numbers and places of two grammars.
ghost use Rattle.std.specs.Prelude.{◌≡◌, ◌<◌, IfSome, length};
ghost use Rattle.preorder_address.specs.Descents.{IsInside};
ghost use Rattle.preorder_address.specs.Numberings.{AreCountsOf};
ghost use Rattle.slt_grammar.specs.Keyed.{rules_of};

use super::grammar::{Row, START, TWICE, rules_of};
use super::numbers::{ATTRIBUTES, names};
use plain_tree::Names;
use preorder_address::{Descent, after_attributes, end_of_kids, locate, locate_place};
use read_steps::Steps;
use segment_counts::Counts;
use slt_grammar::{Grammar, Key, check};
use std::alloc::{AllocError, Global};
use std::marker::Brand;
use std::sync::ledger::{Blank, Ledger};
use std::test::Fail;

// A rule, and a place in its body.
type Place = (usize, usize);

// What a descent leads to: the node with a number, a place counted with the bottoms, where a node's kids end, and where those that are no
// attributes begin.
#[derive(Clone, Copy)]
enum Goal {
    Node(u64),
    Place(u64),
    End(u64),
    After(u64),
}

use Goal::{After, End, Node, Place as At};

static DESCENTS: [(&[Row], Goal, Option<&[Place]>); 14] = [
    (&[TWICE, START], Node(0), Some(&[(1, 0)])),
    (&[TWICE, START], Node(5), Some(&[(1, 3), (0, 2)])),
    (&[TWICE, START], Node(8), None),
    (&[TWICE, START], At(5), Some(&[(1, 2), (0, 3)])),
    (&[TWICE, START], At(16), Some(&[(1, 7)])),
    (&[TWICE, START], At(17), None),
    (ATTRIBUTES, End(0), Some(&[(1, 8)])),
    (ATTRIBUTES, End(1), Some(&[(1, 7)])),
    (ATTRIBUTES, End(2), Some(&[(1, 2), (0, 1)])),
    (ATTRIBUTES, End(6), None),
    (ATTRIBUTES, After(0), Some(&[(1, 1)])),
    (ATTRIBUTES, After(1), Some(&[(1, 3)])),
    (ATTRIBUTES, After(3), Some(&[(1, 2), (0, 3)])),
    (ATTRIBUTES, After(6), None),
];

// The place of a node in a body of at most ten nodes.
fn place_of<L: Ledger>(
    grammar: &Grammar,
    rule: usize,
    node: Key,
    steps: &mut Steps<L>,
) -> Option<usize>
    requires { rule < length grammar.now.rules }
{
    let mut key = grammar.root(rule);
    for place in 0..10 {
        if key == node {
            return Some(place);
        }
        key = grammar.next_in_preorder(key, steps)?;
    }
    None
}

fn descent_to<L: Ledger>(
    grammar: &Grammar,
    counts: &Counts,
    names: &Names,
    goal: Goal,
    steps: &mut Steps<L>,
) -> Option<Descent>
    requires { AreCountsOf (rules_of grammar.now.rules) counts.now }
    ensures { IfSome result (IsInside grammar.now.rules) }
{
    // The call tells what is true of every grammar.
    let _limit = grammar.limit();
    match goal {
        Goal::Node(number) => locate(counts, number),
        Goal::Place(place) => locate_place(counts, place),
        Goal::End(number) => end_of_kids(grammar, counts, number, steps),
        Goal::After(number) => after_attributes(grammar, counts, names, number, steps),
    }
}

// The rules and places of a descent's levels, read with a counter of their own.
fn places_to<L: Ledger>(
    alloc: Global,
    grammar: &Grammar,
    counts: &Counts,
    names: &Names,
    goal: Goal,
    blank: Blank,
) -> Result<Option<Vec<Place>>, AllocError>
    requires counts { AreCountsOf (rules_of grammar.now.rules) counts.now }
    requires name { blank.name ≡ L.name }
    requires parts { blank.parts ≡ L.parts }
    requires some { 0 < blank.parts }
{
    let mut steps: Steps<L> = Steps::new(blank);
    let Some(mut descent) = descent_to(grammar, counts, names, goal, &mut steps) else {
        return Ok(None);
    };
    let mut places = Vec::new(alloc);
    while let Some(level) = descent.next(grammar, counts, &mut steps) {
        if level.rule >= grammar.rules() {
            break;
        }
        if let Some(place) = place_of(grammar, level.rule, level.key, &mut steps) {
            places.push((level.rule, place))?;
        }
    }
    Ok(Some(places))
}

// Whether the descent to a goal has these levels.
fn leads_over(
    alloc: Global,
    names: &Names,
    rules: &[Row],
    goal: Goal,
    wanted: Option<&[Place]>,
) -> Result<bool, Fail> {
    let grammar = check(alloc, rules_of(alloc, rules)?)?;
    let counts = Counts::new(alloc, &grammar, names)?;
    let places = places_to::<Brand>(alloc, &grammar, &counts, names, goal, Blank::new(1))?;
    Ok(places.as_deref() == wanted)
}

#[test]
fn descents_lead_to_their_goals(rt: HostRuntime) -> Result<(), Fail> {
    let names = names(rt.alloc())?;
    for (row, &(rules, goal, wanted)) in DESCENTS.iter().enumerate() {
        let is_right = leads_over(rt.alloc(), &names, rules, goal, wanted)?;
        assert!(rt; is_right, "row {row}");
    }
    Ok(())
}
