// Which numbers of the table of subterms get a rule.
ghost use Rattle.std.specs.Prelude.{◌≡◌, ◌<◌, ◌+◌, ◌++◌, ◌∷◌, [], ◌^◌, ℕ, List, length, get_or, IfOk, if◌then◌else◌};
ghost use Rattle.fcns_encoding.specs.Cells.{AreEarlier};
ghost use Rattle.fcns_encoding.specs.Marks.{used_by, AreCounted, Mark, bottom_mark, labels_over, capped_labels, capped, marks_of};

use crate::sharing::Sharing;
use crate::subterms::Cell;
use std::alloc::{AllocError, Global};

// For each number whether it gets a rule, by how often it is used, and by how many labels that rule would have.
pub(crate) fn marks(
    alloc: Global,
    cells: &[Cell],
    sharing: Sharing,
) -> Result<Vec<bool>, AllocError>
    requires earlier { AreEarlier cells.now }
    requires few { length cells.now < 2 ^ 63 }
    ensures { IfOk result (λ marks. marks.items ≡ marks_of sharing cells.now) }
{
    let mut uses = vec![in alloc; 0; cells.len() + 1]?;
    count_uses(cells, uses.as_mut_slice());
    marks_with(alloc, cells, uses.as_slice(), sharing)
}

// Counts how often the cells use each number.
fn count_uses(cells: &[Cell], uses: &mut [u32])
    requires earlier { AreEarlier cells.now }
    requires len { length uses.old ≡ length cells.now + 1 }
    requires counted { AreCounted [] uses.old }
    ensures { AreCounted (used_by cells.now) uses.new }
{
    for cell in cells {
        count_use(uses, cell.first);
        count_use(uses, cell.second);
    }
}

// Counts a use. A count that is the greatest number of 32 bits stays so.
fn count_use(uses: &mut [u32], number: u32)
    requires there { number < length uses.old }
    ensures { (numbers : List ℕ) → AreCounted numbers uses.old → AreCounted (numbers ++ number ∷ []) uses.new }
{
    let at = number as usize;
    uses[at] = uses[at].saturating_add(1);
}

// The marks by the counted uses, from bottom's on: the numbers below a cell have theirs before it.
fn marks_with(
    alloc: Global,
    cells: &[Cell],
    uses: &[u32],
    sharing: Sharing,
) -> Result<Vec<bool>, AllocError>
    requires earlier { AreEarlier cells.now }
    requires few { length cells.now < 2 ^ 63 }
    requires len { length uses.now ≡ length cells.now + 1 }
    requires counted { AreCounted (used_by cells.now) uses.now }
    ensures { IfOk result (λ marks. marks.items ≡ marks_of sharing cells.now) }
{
    let mut marks = Vec::with_capacity(alloc, cells.len() + 1)?;
    let mut written = Vec::with_capacity(alloc, cells.len() + 1)?;
    marks.push(false)?;
    written.push(1)?;
    for at in 0..cells.len() {
        let labels = labels_of(written.as_slice(), cells[at]);
        let shared = sharing.shares(uses[at + 1], labels);
        marks.push(shared)?;
        written.push(labels_where(shared, labels))?;
    }
    Ok(marks)
}

// How many labels the body of a cell has, by how many each number is written with.
fn labels_of(written: &[u32], cell: Cell) -> u32
    requires first { cell.first < length written.now }
    requires second { cell.second < length written.now }
    ensures { (marks : List Mark) → written.now ≡ capped_labels marks → result ≡ capped (labels_over (get_or marks cell.first bottom_mark) (get_or marks cell.second bottom_mark)) }
{
    let first = written[cell.first as usize];
    let second = written[cell.second as usize];
    first.saturating_add(second).saturating_add(1)
}

// How many labels a number is written with where it is used: one where it is a call.
fn labels_where(shared: bool, labels: u32) -> u32
    ensures { result ≡ if shared then 1 else labels }
{
    if shared { 1 } else { labels }
}
