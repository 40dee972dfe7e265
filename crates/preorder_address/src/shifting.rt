// Marks that stay or move where the value changes at one node of the start.
ghost use Rattle.std.specs.Prelude.{◌≡◌, ◌+◌, ◌≤◌, All, IfSome, length, option_to_list, take};
ghost use Rattle.preorder_address.specs.Shifted.{ComesOf, IsLeft, IsMoved, MoveBy};

use crate::marks::Mark;
use crate::numbering::Numbering;
use segment_counts::Weights;
use slt_grammar::Key;

/// A change of the value at one node of the start: the node's number, and what the value weighed before and weighs now.
#[derive(Clone, Copy, Drop)]
pub struct Shift {
    pub by: Numbering,
    pub number: u64,
    pub had: Weights,
    pub has: Weights,
}

// Puts the marks that are left behind one another, in their order, and answers how many there are.
pub(crate) fn shift_all(marks: &mut [Mark], shift: &Shift, gone: &Option<Key>) -> usize
    ensures few { result ≤ length marks.new }
    ensures left { All (IsLeft shift.now (option_to_list gone.now) marks.old) (take result marks.new) }
{
    let mut kept = 0;
    let mut next = 0;
    while next < marks.len() {
        if let Some(mark) = shifted(&marks[next], shift, gone) {
            marks[kept] = mark;
            kept += 1;
        }
        next += 1;
    }
    kept
}

// What comes of a mark. Of one at the number itself nothing does.
fn shifted(mark: &Mark, shift: &Shift, gone: &Option<Key>) -> Option<Mark>
    ensures { IfSome result (ComesOf shift.now (option_to_list gone.now) mark.now) }
{
    if *gone == Some(mark.key) {
        return None;
    }
    if shift.by.of(mark.passed) < shift.number {
        return Some(*mark);
    }
    moved(mark, shift)
}

// A mark behind the number, moved by what the value has come to weigh more or less, where that leaves it behind the number.
fn moved(mark: &Mark, shift: &Shift) -> Option<Mark>
    ensures { IfSome result (IsMoved shift.now mark.now) }
{
    if shift.by.of(mark.passed) <= shift.number {
        return None;
    }
    let passed = moved_weights(mark.passed, shift)?;
    if shift.by.of(passed) <= shift.number {
        return None;
    }
    Some(Mark {
        key: mark.key,
        passed,
    })
}

fn moved_weights(passed: Weights, shift: &Shift) -> Option<Weights>
    ensures { IfSome result (MoveBy shift.now passed) }
{
    Some(Weights {
        nodes: moved_number(passed.nodes, shift.had.nodes, shift.has.nodes)?,
        texts: moved_number(passed.texts, shift.had.texts, shift.has.texts)?,
        all: moved_number(passed.all, shift.had.all, shift.has.all)?,
    })
}

fn moved_number(number: u64, had: u64, has: u64) -> Option<u64>
    ensures { IfSome result (λ now. now + had ≡ number + has) }
{
    number.checked_add(has)?.checked_sub(had)
}
