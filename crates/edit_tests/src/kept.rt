// Whether what a session keeps beside its grammar is what would be made anew of it.
ghost use Rattle.slt_grammar.specs.Grammars.{IsSwept};
ghost use Rattle.slt_grammar.specs.Keyed.{rules_of};

use digram_index::{Digram, Index, arity_of, build};
use segment_counts::Counts;
use slt_grammar::{Grammar, Label};
use std::alloc::{AllocError, Global};
use std::test::Fail;
use store_core::{Session, Store};

// Whether the session's counts and index are those of its grammar.
pub(crate) fn is_kept(alloc: Global, session: &Session) -> Result<bool, Fail> {
    match session.document() {
        Some(store) => Ok(is_counted(alloc, store)? && is_indexed(alloc, store)?),
        None => Ok(false),
    }
}

fn is_counted(alloc: Global, store: &Store) -> Result<bool, Fail>
    requires { IsSwept (rules_of store.now.grammar.rules) }
{
    let anew = Counts::new(alloc, &store.grammar, &store.names)?;
    let rules = anew.rules();
    Ok(
        store.counts.rules() == rules
            && (0..rules).all(|rule| row(&store.counts, rule) == row(&anew, rule)),
    )
}

// What is counted of a rule's segments, of which there are at most nine.
fn row(counts: &Counts, rule: usize) -> [[u64; 3]; 9] {
    let mut row = [[0; 3]; 9];
    for (segment, told) in row.iter_mut().enumerate() {
        *told = [
            counts.nodes(rule, segment),
            counts.texts(rule, segment),
            counts.all(rule, segment),
        ];
    }
    row
}

fn is_indexed(alloc: Global, store: &Store) -> Result<bool, AllocError> {
    let anew = build(alloc, &store.grammar)?;
    let labels = labels_of(alloc, store)?;
    Ok(are_same(&store.grammar, &store.index, &anew, &labels))
}

// Whether two indexes of a grammar tell the same of each digram of these labels.
fn are_same(grammar: &Grammar, kept: &Index, anew: &Index, labels: &[Label]) -> bool {
    for &upper in labels {
        for place in 1..=arity_of(grammar, upper) {
            if !is_same(kept, anew, labels, upper, place) {
                return false;
            }
        }
    }
    true
}

fn is_same(kept: &Index, anew: &Index, labels: &[Label], upper: Label, place: usize) -> bool {
    labels.iter().all(|&lower| {
        let digram = Digram {
            upper,
            place,
            lower,
        };
        kept.count(digram) == anew.count(digram)
    })
}

// The labels that nodes of a store's rules may have.
fn labels_of(alloc: Global, store: &Store) -> Result<Vec<Label>, AllocError> {
    let mut labels = Vec::new(alloc);
    labels.push(Label::Bottom)?;
    labels.push(Label::Param)?;
    for symbol in 0..store.names.len() {
        labels.push(Label::Symbol(symbol))?;
    }
    for rule in 0..store.grammar.rules() {
        labels.push(Label::Call(rule))?;
    }
    Ok(labels)
}
