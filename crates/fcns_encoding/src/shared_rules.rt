// Rules made of the table of subterms.
ghost use Rattle.std.specs.Prelude.{suc, ◌≡◌, ◌<◌, ◌≤◌, ◌+◌, ◌++◌, ◌∷◌, [], ◌^◌, ℕ, List, length, IfOk, OnOk, Some, None, slice_get};
ghost use Rattle.rule_arena.specs.declared.label.Label.TheVariants.{Symbol};
ghost use Rattle.fcns_encoding.specs.Cells.{AreEarlier, AreDistinctCells};
ghost use Rattle.fcns_encoding.specs.declared.subterms.Cell.{Cell as TableCell};
ghost use Rattle.fcns_encoding.specs.Marks.{marks_of};
ghost use Rattle.fcns_encoding.specs.Sharing.{is_ruled, part_at, body_of, rules_of_cells, ArePlaces, Stands};

use crate::marks::marks;
use crate::sharing::Sharing;
use crate::subterms::{Cell, Subterms, short};
use slt_grammar::{Body, Label, RuleList};
use std::alloc::{AllocError, Global};

// What stands for a number in a body: one label, or a symbol over two more numbers.
#[derive(Clone, Copy, Drop)]
pub(crate) enum Written {
    Whole(Label),
    Over(Cell),
}

// A table, with a mark for each number whether it gets a rule.
#[derive(Clone, Copy)]
struct Marked<'a> {
    cells: &'a [Cell],
    marks: &'a [bool],
}

// A rule for each number that `sharing` gives one, and for the last, with everything else written where it is used. The table goes
// when the rules stand.
pub(crate) fn rules_of_table(
    alloc: Global,
    subterms: Subterms,
    sharing: Sharing,
) -> Result<RuleList, AllocError>
    ensures rules { IfOk result (λ G. G ≡ rules_of_cells (marks_of sharing subterms) subterms) }
    ensures earlier { AreEarlier subterms }
    ensures distinct { AreDistinctCells subterms }
{
    shared_rules(alloc, subterms.as_slice(), sharing)
}

fn shared_rules(alloc: Global, cells: &[Cell], sharing: Sharing) -> Result<RuleList, AllocError>
    requires earlier { AreEarlier cells.now }
    requires few { length cells.now < 2 ^ 63 }
    ensures { IfOk result (λ G. G ≡ rules_of_cells (marks_of sharing cells.now) cells.now) }
{
    let marks = marks(alloc, cells, sharing)?;
    let table = Marked {
        cells,
        marks: marks.as_slice(),
    };
    let mut places = vec![in alloc; None; cells.len() + 1]?;
    rules_with(alloc, table, places.as_mut_slice())
}

// The rules, in the order of their numbers, with room for their places.
fn rules_with(
    alloc: Global,
    table: Marked,
    places: &mut [Option<u32>],
) -> Result<RuleList, AllocError>
    requires earlier { AreEarlier table.cells.now }
    requires marks { length table.marks.now ≡ length table.cells.now + 1 }
    requires len { length places.old ≡ length table.cells.now + 1 }
    requires places { ArePlaces table.marks.now table.cells.now 0 places.old }
    ensures { IfOk result (λ G. G ≡ rules_of_cells table.entry.marks.now table.entry.cells.now) }
{
    let mut rules = RuleList::new(alloc);
    for at in 0..table.cells.len() {
        if has_rule(table, at) {
            let body = write(alloc, table, places, at)?;
            let place = short(rules.as_slice().len())?;
            rules.push(0, body)?;
            places[at + 1] = Some(place);
        }
    }
    Ok(rules)
}

// Whether a cell's number is marked, or is the last.
fn has_rule(table: Marked, at: usize) -> bool
    requires there { at < length table.cells.now }
    requires len { length table.marks.now ≡ length table.cells.now + 1 }
    ensures { result ≡ is_ruled table.entry.marks.now table.entry.cells.now (at + 1) }
{
    at + 1 == table.cells.len() || table.marks[at + 1]
}

// The body of a cell's number: its symbol, and so on below it, but for calls of the rules that there are.
fn write(
    alloc: Global,
    table: Marked,
    places: &[Option<u32>],
    at: usize,
) -> Result<Body, AllocError>
    requires there { at < length table.cells.now }
    requires earlier { AreEarlier table.cells.now }
    requires len { length places.now ≡ length table.cells.now + 1 }
    requires places { ArePlaces table.marks.now table.cells.now at places.now }
    ensures { (c : TableCell) → slice_get table.entry.cells.now at ≡ Some c → IfOk result (λ body. body ≡ body_of table.entry.marks.now table.entry.cells.now c) }
{
    let mut body = Body::new(alloc);
    let mut stack = Vec::new(alloc);
    open(table.cells[at], &mut body, &mut stack)?;
    while let Some(number) = stack.pop() {
        match writing_of(table, places, number) {
            Written::Whole(label) => body.push(label)?,
            Written::Over(cell) => open(cell, &mut body, &mut stack)?,
        }
    }
    Ok(body)
}

// Writes a cell's symbol, and puts what stands below it on the stack.
fn open(cell: Cell, body: &mut Body, stack: &mut Vec<u32>) -> Result<(), AllocError>
    ensures body { OnOk result (body.new ≡ body.old ++ Symbol cell.symbol ∷ []) }
    ensures stack { OnOk result (stack.new.items ≡ (stack.old.items ++ cell.second ∷ []) ++ cell.first ∷ []) }
{
    body.push(Label::Symbol(cell.symbol as usize))?;
    stack.push(cell.second)?;
    stack.push(cell.first)?;
    Ok(())
}

// What stands for a number below a cell, where the numbers up to that cell have their rules.
fn writing_of(table: Marked, places: &[Option<u32>], number: u32) -> Written
    requires there { number ≤ length table.cells.now }
    requires earlier { AreEarlier table.cells.now }
    requires len { length places.now ≡ length table.cells.now + 1 }
    requires places { (at : ℕ) × (number ≤ at) × ArePlaces table.marks.now table.cells.now at places.now }
    ensures { Stands table.entry.marks.now table.entry.cells.now number result }
{
    match places[number as usize] {
        Some(place) => Written::Whole(Label::Call(place as usize)),
        None => match number {
            0 => Written::Whole(Label::Bottom),
            _ => Written::Over(table.cells[number as usize - 1]),
        },
    }
}
