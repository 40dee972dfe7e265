// Models, and lists of names that they match or not.
use content_models::{Checker, OneState, read_schema};
use plain_tree::{Kind, Names};
use slt_grammar::{Falling, Rising};
use std::alloc::{AllocError, Global};
use std::test::Fail;

// What the element `x` may hold, and lists of names of one letter, which are its children; a dot is a text.
struct Row {
    model: &'static [u8],
    good: &'static [&'static [u8]],
    bad: &'static [&'static [u8]],
}

static ROWS: [Row; 14] = [
    Row {
        model: b"x = a",
        good: &[b"a", b".a."],
        bad: &[b"", b"b", b"aa", b"ax", b"z"],
    },
    Row {
        model: b"x = ()",
        good: &[b"", b"."],
        bad: &[b"a"],
    },
    Row {
        model: b"x = a, b",
        good: &[b"ab", b"a.b"],
        bad: &[b"", b"a", b"b", b"ba", b"abb", b"aab"],
    },
    Row {
        model: b"x = a | b",
        good: &[b"a", b"b"],
        bad: &[b"", b"ab", b"c"],
    },
    Row {
        model: b"x = a | ab | () | b, c",
        good: &[b"", b"a", b"bc"],
        bad: &[b"b", b"c", b"ab", b"abc"],
    },
    Row {
        model: b"x = a?, b*, c+",
        good: &[b"c", b"ac", b"abbcc", b"bc"],
        bad: &[b"", b"ab", b"acb", b"aac"],
    },
    Row {
        model: b"x = (a, b?)+",
        good: &[b"a", b"ab", b"aba", b"aab"],
        bad: &[b"", b"b", b"abb"],
    },
    Row {
        model: b"x = (a?)*, (b | ())+",
        good: &[b"", b"a", b"b", b"aabb"],
        bad: &[b"ba", b"c"],
    },
    Row {
        model: b"x = (a, a)*",
        good: &[b"", b"aa", b"aaaa"],
        bad: &[b"a", b"aaa"],
    },
    // two ways to read the first names
    Row {
        model: b"x = (a | b)*, a, (a | b), (a | b)",
        good: &[b"aaa", b"abb", b"bbabb", b"aabaabb"],
        bad: &[b"", b"bb", b"bab", b"abbbb"],
    },
    Row {
        model: b"x = ((a, b)* | (b, a)+)?, c?",
        good: &[b"", b"c", b"abab", b"bac"],
        bad: &[b"abba", b"cc", b"a"],
    },
    Row {
        model: b"y = a",
        good: &[b"", b"b", b"aa"],
        bad: &[],
    },
    Row {
        model: b"y = b\nx = a\nz = c",
        good: &[b"a"],
        bad: &[b"b", b"c", b""],
    },
    // a name that stands more than 64 times
    Row {
        model: b"y = a,a,a,a,a,a,a,a,a,a,a,a,a,a,a,a,a,a,a,a,a,a,a,a,a,a,a,a,a,a,a,a,a,a,a,a,a,a,a,a\nx = (a,a,a,a,a,a,a,a,a,a,a,a,a,a,a,a,a,a,a,a,a,a,a,a,a,b)*, a",
        good: &[b"a", b"aaaaaaaaaaaaaaaaaaaaaaaaaba"],
        bad: &[b"", b"b", b"aa", b"aaaaaaaaaaaaaaaaaaaaaaaaaaa"],
    },
];

pub(crate) fn table(alloc: Global) -> Result<Names, AllocError> {
    let mut names = Names::new(alloc);
    names.intern(alloc, Kind::Text, b"")?;
    for name in [b"a", b"b", b"c", b"x", b"z"] {
        names.intern(alloc, Kind::Element, name)?;
    }
    Ok(names)
}

fn symbol_of(names: &Names, letter: u8) -> usize {
    let kind = if letter == b'.' {
        return 0;
    } else {
        Kind::Element
    };
    names.find(kind, &[letter]).unwrap_or(0)
}

// Whether the element `x` is wrong with these children.
pub(crate) fn is_wrong(names: &Names, checker: &Checker, kids: &[u8]) -> Result<bool, AllocError> {
    let bottom = checker.bottom()?;
    let mut chain = checker.bottom()?;
    for &letter in kids.iter().rev() {
        chain = checker.node(symbol_of(names, letter), &bottom, &chain)?;
    }
    let fell = checker.step(symbol_of(names, b'x'), &OneState, &chain, &bottom)?;
    Ok(fell.hit)
}

#[test]
fn models_match_what_their_rows_say(rt: HostRuntime) -> Result<(), Fail> {
    let names = table(rt.alloc())?;
    for row in &ROWS {
        let checker = read_schema(rt.alloc(), row.model)?.compile(rt.alloc(), &names)?;
        for &kids in row.good {
            assert!(rt; !is_wrong(&names, &checker, kids)?, "{kids:?}");
        }
        for &kids in row.bad {
            assert!(rt; is_wrong(&names, &checker, kids)?, "{kids:?}");
        }
    }
    Ok(())
}
