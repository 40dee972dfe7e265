// Nodes that are marked in an index.
use super::grammar::{START, TWICE, rules_of};
use digram_index::{Index, build, following, unlink_node};
use slt_grammar::{Grammar, check};
use std::alloc::Global;
use std::test::Fail;

// Whether the root of a grammar's first rule can be marked, whether the node below can and then is, and whether it still is once it was
// unlinked.
fn marked(grammar: &Grammar, index: &mut Index) -> Option<(bool, bool, bool, bool)> {
    if grammar.rules() == 0 {
        return None;
    }
    let root = grammar.root(0);
    let below = following(grammar, root)?;
    let above = index.mark(root);
    let marked = index.mark(below);
    let before = index.is_marked(below);
    unlink_node(index, below);
    Some((above, marked, before, index.is_marked(below)))
}

fn marked_in_table(alloc: Global) -> Result<Option<(bool, bool, bool, bool)>, Fail> {
    let grammar = check(alloc, rules_of(alloc, &[TWICE, START])?)?;
    let mut index = build(alloc, &grammar)?;
    Ok(marked(&grammar, &mut index))
}

#[test]
fn a_mark_goes_with_the_occurrence(rt: HostRuntime) -> Result<(), Fail> {
    let done = marked_in_table(rt.alloc())?;
    assert!(rt; done == Some((false, true, true, false)));
    Ok(())
}
