// The turns of the filters of a query, in postfix order: each part leaves its truth.
ghost use Rattle.std.specs.Prelude.{◌≡◌, ◌<◌, ◌+◌, ◌*◌, ◌-◌, ◌^◌, ◌++◌, ◌∷◌, ℕ, List, true, false, length, IfOk, IfSome, OnOk, replicate};
ghost use Rattle.plain_tree.specs.declared.kind.Kind.{Kind};
ghost use Rattle.text_list.specs.Marking.{mark_of};
ghost use Rattle.xpath_parser.specs.declared.query.Axis.TheVariants.{Child, Attribute};
ghost use Rattle.xpath_parser.specs.Queries.{TextOf, NameOf};
ghost use Rattle.xpath_parser.specs.Shown.{test_of, filter_of, filters_of, steps_of, paths_of};
ghost use Rattle.xpath_parser.specs.Numbering.{principal};
ghost use Rattle.selecting_automaton.specs.declared.turns.Turn.{Turn};
ghost use Rattle.selecting_automaton.specs.Program.{judging, filtering, seeking, searching};
ghost use Rattle.selecting_automaton.specs.Wanting.{wanted};

use crate::turns::{Turn, Wanted};
use plain_tree::{Bytes, Kind, Names};
use std::alloc::AllocError;
use text_list::mark_of;
use xpath_parser::{Axis, Filter, Filters, Paths, QuerySteps, Test};

/// The kind of the nodes for which `*` and names stand on an axis (XPath 1.0, 2.3).
fn principal(axis: Axis) -> Kind
    ensures { result ≡ principal axis }
{
    match axis {
        Axis::Attribute => Kind::Attribute,
        Axis::Child
        | Axis::Descendant
        | Axis::DescendantOrSelf
        | Axis::SelfNode
        | Axis::FollowingSibling => Kind::Element,
    }
}

/// What a step takes. A name that the table lacks is no node's.
pub(crate) fn wanted_of(names: &Names, axis: Axis, test: &Test) -> Wanted
    ensures { (mark : List ℕ → ℕ) → result ≡ wanted names.now mark axis (test_of test.now) }
{
    match test {
        Test::Star => Wanted::OfKind(principal(axis)),
        Test::Name(name) => match names.find(principal(axis), name.as_slice()) {
            Some(place) => Wanted::Named(place),
            None => Wanted::Nothing,
        },
        Test::AnyNode => Wanted::Anything,
        Test::TextNode => Wanted::OfKind(Kind::Text),
        Test::CommentNode => Wanted::OfKind(Kind::Comment),
        Test::InstructionNode => Wanted::OfKind(Kind::Instruction),
    }
}

/// The texts that equal a literal, by its mark. A value that is no literal is no text's.
fn text_wanted(literals: &[Bytes], value: &[u8]) -> Wanted
    requires { length literals.now < 2 ^ 32 - 1 }
    ensures { (names : List (Kind × List ℕ)) → result ≡ wanted names (mark_of literals.now) Child (TextOf value.now) }
{
    match mark_of(literals, value) {
        0 => Wanted::Nothing,
        mark => Wanted::TextWith(mark as usize),
    }
}

/// The symbol of a place with a mark, where so many symbols have none. It is none where memory holds no such table of names.
fn with_mark(place: usize, count: usize, mark: usize) -> Option<usize>
    ensures { IfSome result (λ symbol. symbol ≡ place + count * mark) }
{
    place.checked_add(count.checked_mul(mark)?)
}

/// The attributes with a name and a literal for a value: one symbol.
fn attribute_wanted(
    names: &Names,
    literals: &[Bytes],
    name: &[u8],
    value: &[u8],
) -> Result<Wanted, AllocError>
    requires { length literals.now < 2 ^ 32 - 1 }
    ensures { IfOk result (λ w. w ≡ wanted names.now (mark_of literals.now) Attribute (NameOf name.now value.now)) }
{
    let mark = mark_of(literals, value);
    if mark == 0 {
        return Ok(Wanted::Nothing);
    }
    let Some(place) = names.find(Kind::Attribute, name) else {
        return Ok(Wanted::Nothing);
    };
    match with_mark(place, names.len(), mark as usize) {
        Some(symbol) => Ok(Wanted::Exactly(symbol)),
        None => Err(AllocError),
    }
}

/// Writes the turns of a comparison: a path of one step without filters.
fn write_comparison(axis: Axis, wanted: Wanted, turns: &mut Vec<Turn>) -> Result<(), AllocError>
    ensures { OnOk result ((after : List Turn) → turns.new.items ++ after ≡ turns.old.items ++ (Turn.Truth true ∷ Turn.Truth true ∷ Turn.Seek axis wanted ∷ Turn.Truth false ∷ Turn.Or ∷ after)) }
{
    turns.push(Turn::Truth(true))?;
    turns.push(Turn::Truth(true))?;
    turns.push(Turn::Seek(axis, wanted))?;
    turns.push(Turn::Truth(false))?;
    turns.push(Turn::Or)?;
    Ok(())
}

/// Writes a turn several times.
fn write_many(turn: Turn, count: usize, turns: &mut Vec<Turn>) -> Result<(), AllocError>
    ensures { OnOk result (turns.new.items ≡ turns.old.items ++ replicate count turn) }
{
    'times: for _time in 0..count {
        turns.push(turn)?;
    }
    Ok(())
}

#[cycle(filters)]
fn write_filter(
    names: &Names,
    literals: &[Bytes],
    filter: &Filter,
    turns: &mut Vec<Turn>,
) -> Result<(), AllocError>
    requires { length literals.now < 2 ^ 32 - 1 }
    ensures { OnOk result ((after : List Turn) → turns.new.items ++ after ≡ turns.old.items ++ judging (wanted names.now (mark_of literals.now)) (filter_of filter.now) after) }
{
    match filter {
        Filter::Or(first, second) => {
            write_filter(names, literals, first, turns)?;
            write_filter(names, literals, second, turns)?;
            turns.push(Turn::Or)?;
        }
        Filter::And(first, second) => {
            write_filter(names, literals, first, turns)?;
            write_filter(names, literals, second, turns)?;
            turns.push(Turn::And)?;
        }
        Filter::Not(inner) => {
            write_filter(names, literals, inner, turns)?;
            turns.push(Turn::Not)?;
        }
        Filter::True => turns.push(Turn::Truth(true))?,
        Filter::False => turns.push(Turn::Truth(false))?,
        Filter::Exists(paths) => write_search(names, literals, paths, turns)?,
        Filter::TextIs(value) => {
            let wanted = text_wanted(literals, value.as_slice());
            write_comparison(Axis::Child, wanted, turns)?;
        }
        Filter::AttributeIs(name, value) => {
            let wanted = attribute_wanted(names, literals, name.as_slice(), value.as_slice())?;
            write_comparison(Axis::Attribute, wanted, turns)?;
        }
    }
    Ok(())
}

/// All filters have to hold.
#[cycle(filters)]
pub(crate) fn write_filters(
    names: &Names,
    literals: &[Bytes],
    filters: &Filters,
    turns: &mut Vec<Turn>,
) -> Result<(), AllocError>
    requires { length literals.now < 2 ^ 32 - 1 }
    ensures { OnOk result ((after : List Turn) → turns.new.items ++ after ≡ turns.old.items ++ filtering (wanted names.now (mark_of literals.now)) (filters_of filters.now) after) }
{
    let count = filters.len();
    'filters: for at in 0..count {
        let Some(filter) = filters.get(at) else {
            unreachable!()
        };
        write_filter(names, literals, filter, turns)?;
    }
    turns.push(Turn::Truth(true))?;
    write_many(Turn::And, count, turns)?;
    Ok(())
}

/// Some path has to lead somewhere.
#[cycle(filters)]
fn write_search(
    names: &Names,
    literals: &[Bytes],
    paths: &Paths,
    turns: &mut Vec<Turn>,
) -> Result<(), AllocError>
    requires { length literals.now < 2 ^ 32 - 1 }
    ensures { OnOk result ((after : List Turn) → turns.new.items ++ after ≡ turns.old.items ++ searching (wanted names.now (mark_of literals.now)) (paths_of paths.now) after) }
{
    let count = paths.len();
    'paths: for at in 0..count {
        let Some(path) = paths.get(at) else {
            unreachable!()
        };
        write_steps(names, literals, &path.steps, turns)?;
    }
    turns.push(Turn::Truth(false))?;
    write_many(Turn::Or, count, turns)?;
    Ok(())
}

/// The steps of a path in a filter, the last one first.
#[cycle(filters)]
fn write_steps(
    names: &Names,
    literals: &[Bytes],
    steps: &QuerySteps,
    turns: &mut Vec<Turn>,
) -> Result<(), AllocError>
    requires { length literals.now < 2 ^ 32 - 1 }
    ensures { OnOk result ((after : List Turn) → turns.new.items ++ after ≡ turns.old.items ++ seeking (wanted names.now (mark_of literals.now)) (steps_of steps.now) after) }
{
    turns.push(Turn::Truth(true))?;
    'steps: for at in (0..steps.len()).rev() {
        let Some(step) = steps.get(at) else {
            unreachable!()
        };
        write_filters(names, literals, &step.filters, turns)?;
        turns.push(Turn::Seek(step.axis, wanted_of(names, step.axis, &step.test)))?;
    }
    Ok(())
}
