// Counts of small grammars, segment by segment.
use super::grammar::{Row, START, TWICE, rules_of};
use plain_tree::{Kind, Names};
use segment_counts::Counts;
use slt_grammar::Label::{Bottom, Call, Param, Symbol};
use slt_grammar::check;
use std::alloc::{AllocError, Global};
use std::test::Fail;

// A rule, a segment of it, and there the nodes, the texts, and the nodes with the bottoms.
type Segment = (usize, usize, [u64; 3]);

// <a><b>..</b><b>..</b></a>, where rule 0 is b(text(bottom, bottom), y1).
const TEXTS: &[Row] = &[
    (1, &[Symbol(2), Symbol(3), Bottom, Bottom, Param]),
    (
        0,
        &[
            Symbol(0),
            Symbol(1),
            Call(0),
            Call(0),
            Bottom,
            Bottom,
            Bottom,
        ],
    ),
];

// <a><b/><b>..</b></a>, where rule 0 is b(y1, b(y2, bottom)).
const NEIGHBOURS: &[Row] = &[
    (2, &[Symbol(2), Param, Symbol(2), Param, Bottom]),
    (
        0,
        &[
            Symbol(0),
            Symbol(1),
            Call(0),
            Bottom,
            Symbol(3),
            Bottom,
            Bottom,
            Bottom,
            Bottom,
        ],
    ),
];

static COUNTED: [(&[Row], &[Segment]); 3] = [
    (
        &[TWICE, START],
        &[(0, 0, [2, 0, 4]), (0, 1, [0, 0, 0]), (1, 0, [8, 0, 17])],
    ),
    (
        TEXTS,
        &[(0, 0, [2, 1, 4]), (0, 1, [0, 0, 0]), (1, 0, [6, 2, 13])],
    ),
    (
        NEIGHBOURS,
        &[
            (0, 0, [1, 0, 1]),
            (0, 1, [1, 0, 1]),
            (0, 2, [0, 0, 1]),
            (1, 0, [5, 1, 11]),
        ],
    ),
];

// The document, the elements `a` and `b`, and text.
pub(super) fn small_names(alloc: Global) -> Result<Names, AllocError> {
    let mut names = Names::new(alloc);
    names.intern(alloc, Kind::Document, b"")?;
    names.intern(alloc, Kind::Element, b"a")?;
    names.intern(alloc, Kind::Element, b"b")?;
    names.intern(alloc, Kind::Text, b"")?;
    Ok(names)
}

// Whether the segments of these rules have these counts, and the last of them the totals.
fn are_counted(
    alloc: Global,
    names: &Names,
    rules: &[Row],
    segments: &[Segment],
) -> Result<bool, Fail> {
    let grammar = check(alloc, rules_of(alloc, rules)?)?;
    let counts = Counts::new(alloc, &grammar, names)?;
    let mut totals = [0, 0];
    for &(rule, segment, wanted) in segments {
        let nodes = counts.nodes(rule, segment);
        let texts = counts.texts(rule, segment);
        if [nodes, texts, counts.all(rule, segment)] != wanted {
            return Ok(false);
        }
        totals = [nodes, texts];
    }
    Ok([counts.total(), counts.total_texts()] == totals)
}

#[test]
fn segments_are_counted(rt: HostRuntime) -> Result<(), Fail> {
    let names = small_names(rt.alloc())?;
    for (row, &(rules, segments)) in COUNTED.iter().enumerate() {
        let is_right = are_counted(rt.alloc(), &names, rules, segments)?;
        assert!(rt; is_right, "row {row}");
    }
    Ok(())
}
