// The selector of a query.
ghost use Rattle.std.specs.Prelude.{◌≡◌, ◌<◌, ◌≤◌, ◌-◌, ◌^◌, ◌++◌, ◌∷◌, [], List, length, OnOk, IfOk};
ghost use Rattle.plain_tree.specs.Tree.{Tree, none, more};
ghost use Rattle.slt_grammar.specs.Automata.{hits};
ghost use Rattle.text_list.specs.Marking.{mark_of};
ghost use Rattle.value_tests.specs.MarkedCodes.{CodesMarked};
ghost use Rattle.slt_grammar.specs.Terms.{Term};
ghost use Rattle.xpath_parser.specs.Comparing.{literals_of};
ghost use Rattle.xpath_parser.specs.Meaning.{selected};
ghost use Rattle.xpath_parser.specs.Shown.{steps_of, paths_of};
ghost use Rattle.selecting_automaton.specs.declared.turns.Turn.{Turn};
ghost use Rattle.selecting_automaton.specs.Program.{walking, selecting};
ghost use Rattle.selecting_automaton.specs.Wanting.{wanted, kinds_of};
ghost use Rattle.selecting_automaton.specs.Sizes.{parts_inside, steps_outside};
ghost use Rattle.selecting_automaton.specs.Bounds.{HasFewStates};
ghost use Rattle.selecting_automaton.specs.Words.{word_algebra, word_downward, seeks};

use crate::filters::{wanted_of, write_filters};
use crate::selector::Selector;
use crate::turns::Turn;
use plain_tree::{Bytes, Kind, Names};
use std::alloc::{AllocError, Global};
use xpath_parser::{Paths, Query, QuerySteps};

/// The selector of a query, over the table of names of a document.
///
/// Run over what codes a document, with other symbols for nodes whose texts equal one of the query's literals, it hits the nodes that the
/// query selects (XPath 1.0, 2). The query is within the limits of `parse`. It fails for want of memory alone.
pub fn compile(alloc: Global, query: &Query, names: &Names) -> Result<Selector, AllocError>
    requires few { parts_inside (paths_of query.now.paths) ≤ 64 }
    requires short { steps_outside (paths_of query.now.paths) ≤ 64 }
    ensures selects { IfOk result (λ selector. (t : Tree) (term : Term) → CodesMarked names.now (mark_of (literals_of (paths_of query.now.paths))) (more t none) term → hits (word_algebra selector) (word_downward selector) term ≡ selected t (paths_of query.now.paths)) }
    ensures states { IfOk result (λ selector. HasFewStates (word_algebra selector) (word_downward selector) (parts_inside (paths_of query.now.paths)) (steps_outside (paths_of query.now.paths))) }
{
    // The call tells that no name stands twice.
    let _document = names.find(Kind::Document, b"");
    let kinds = kinds_of(alloc, names)?;
    let mut turns = Vec::new(alloc);
    write_paths(names, query.literals(), &query.paths, &mut turns)?;
    let parts = parts_sought(&turns);
    Ok(Selector {
        kinds,
        turns,
        parts,
    })
}

/// The kinds of the symbols.
fn kinds_of(alloc: Global, names: &Names) -> Result<Vec<Kind>, AllocError>
    ensures { IfOk result (λ kinds. kinds.items ≡ kinds_of names.now) }
{
    let mut kinds = Vec::new(alloc);
    'names: for place in 0..names.len() {
        let Some((kind, _name)) = names.at(place) else {
            unreachable!()
        };
        kinds.push(kind)?;
    }
    Ok(kinds)
}

/// How many parts of filters are sought.
fn parts_sought(turns: &[Turn]) -> usize
    ensures { result ≡ seeks turns.now }
{
    let mut parts = 0;
    'turns: for turn in turns {
        parts += parts_of(*turn);
    }
    parts
}

fn parts_of(turn: Turn) -> usize
    ensures parts { result ≡ seeks (turn ∷ []) }
    ensures one { result ≤ 1 }
{
    match turn {
        Turn::Seek(_, _) => 1,
        _ => 0,
    }
}

/// The turns of the paths of a query.
fn write_paths(
    names: &Names,
    literals: &[Bytes],
    paths: &Paths,
    turns: &mut Vec<Turn>,
) -> Result<(), AllocError>
    requires { length literals.now < 2 ^ 32 - 1 }
    ensures { OnOk result (turns.new.items ≡ turns.old.items ++ selecting (wanted names.now (mark_of literals.now)) (paths_of paths.now)) }
{
    'paths: for at in 0..paths.len() {
        let Some(path) = paths.get(at) else {
            unreachable!()
        };
        turns.push(Turn::Begin)?;
        write_path(names, literals, &path.steps, turns)?;
    }
    Ok(())
}

/// The steps of a path, and its end.
fn write_path(
    names: &Names,
    literals: &[Bytes],
    steps: &QuerySteps,
    turns: &mut Vec<Turn>,
) -> Result<(), AllocError>
    requires { length literals.now < 2 ^ 32 - 1 }
    ensures { OnOk result ((after : List Turn) → turns.new.items ++ after ≡ turns.old.items ++ walking (wanted names.now (mark_of literals.now)) (steps_of steps.now) after) }
{
    'steps: for at in 0..steps.len() {
        let Some(step) = steps.get(at) else {
            unreachable!()
        };
        write_filters(names, literals, &step.filters, turns)?;
        turns.push(Turn::Walk(step.axis, wanted_of(names, step.axis, &step.test)))?;
    }
    turns.push(Turn::End)?;
    Ok(())
}
