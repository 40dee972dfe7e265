// How often the digram of an entry may be replaced.
ghost use Rattle.std.specs.Prelude.{◌≡◌, ◌<◌, ◌≤◌, get_or, max};
ghost use Rattle.digram_index.specs.Grouped.{group_at};
ghost use Rattle.digram_index.specs.Spots.{held_count, IsKey};

use crate::patterns::Pattern;
use crate::threads::Threads;
use crate::triples::{has_three, has_two};
use crate::uppers::Uppers;

/// An entry's key: the number of its occurrences where the labels differ. Where they are equal it is at least two or three exactly
/// where so many occurrences share no node: of five or more three always do, of four or fewer it is tried.
pub fn key_of(
    pattern: Pattern,
    count: usize,
    uppers: &Uppers,
    occurrences: &Threads,
    entry: usize,
) -> usize
    requires there { entry < occurrences.now.groups }
    requires counted { count ≡ held_count entry occurrences.now.held }
    ensures key { IsKey pattern (group_at occurrences.now) (λ k. get_or uppers.now k 0) entry count result }
    ensures few { result ≤ max 3 count }
{
    if pattern.upper != pattern.lower {
        return count;
    }
    if count > 4 {
        return count - count / 2;
    }
    let few = occurrences.few(entry);
    if !has_two(uppers, &few) {
        return 1;
    }
    if has_three(uppers, &few) { 3 } else { 2 }
}
