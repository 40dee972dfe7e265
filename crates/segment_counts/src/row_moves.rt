// Moves of rows that lie one behind another.
ghost use Rattle.std.specs.Prelude.{◌≡◌, ◌<◌, ◌≤◌, ◌+◌, ◌-◌, ◌^◌, ◌++◌, ℕ, get_or, length, map, vec_capacity, drop, take};
ghost use Rattle.std.specs.List.{insert_slice, splice};
ghost use Rattle.segment_counts.specs.Cuts.{moved};

use crate::counts::Weights;

// Puts a row in place of the weights from one place up to another. It takes no memory.
pub(crate) fn put_between(segments: &mut Vec<Weights>, from: usize, to: usize, row: &[Weights])
    requires start { from ≤ to }
    requires end { to ≤ length segments.old.items }
    requires room { length segments.old.items + length row.now ≤ vec_capacity segments.old + (to - from) }
    ensures items { segments.new.items ≡ splice segments.old.items from to row.now }
    ensures capacity { vec_capacity segments.old ≤ vec_capacity segments.new }
{
    segments.drain(from..to);
    segments.extend_from_slice(row).unwrap();
    bring_forward(segments.as_mut_slice(), from, row.len());
}

// Moves so many weights at the end before another one.
fn bring_forward(segments: &mut [Weights], before: usize, count: usize)
    requires { before + count ≤ length segments.old }
    ensures { segments.new ≡ insert_slice (take (length segments.old - count) segments.old) before (drop (length segments.old - count) segments.old) }
{
    segments[before..].rotate_right(count);
}

// Keeps what stands from a place on. It takes no memory.
pub(crate) fn keep_from<T: Copy + Drop>(items: &mut Vec<T>, from: usize)
    requires { from ≤ length items.old.items }
    ensures items { items.new.items ≡ drop from items.old.items }
    ensures capacity { vec_capacity items.new ≡ vec_capacity items.old }
{
    let count = items.len() - from;
    items.as_mut_slice().copy_within(from.., 0);
    items.truncate(count);
}

// Moves the ends from a rule's on, as one of them moves.
pub(crate) fn move_ends(ends: &mut Vec<u32>, rule: usize, from: usize, to: usize)
    requires rule { rule ≤ length ends.old.items }
    requires fit { (i : ℕ) → i < length (drop rule ends.old.items) → (from ≤ get_or (drop rule ends.old.items) i 0) × (moved from to (get_or (drop rule ends.old.items) i 0) < 2 ^ 32) }
    ensures items { ends.new.items ≡ take rule ends.old.items ++ map (moved from to) (drop rule ends.old.items) }
    ensures capacity { vec_capacity ends.new ≡ vec_capacity ends.old }
{
    move_behind(ends.as_mut_slice(), rule, from, to);
}

// The same of a slice.
fn move_behind(ends: &mut [u32], rule: usize, from: usize, to: usize)
    requires rule { rule ≤ length ends.old }
    requires fit { (i : ℕ) → i < length (drop rule ends.old) → (from ≤ get_or (drop rule ends.old) i 0) × (moved from to (get_or (drop rule ends.old) i 0) < 2 ^ 32) }
    ensures { ends.new ≡ take rule ends.old ++ map (moved from to) (drop rule ends.old) }
{
    move_all(&mut ends[rule..], from, to);
}

// Moves all of these ends.
fn move_all(ends: &mut [u32], from: usize, to: usize)
    requires { (i : ℕ) → i < length ends.old → (from ≤ get_or ends.old i 0) × (moved from to (get_or ends.old i 0) < 2 ^ 32) }
    ensures { ends.new ≡ map (moved from to) ends.old }
{
    for end in ends.iter_mut() {
        *end = (*end as usize - from + to) as u32;
    }
}
