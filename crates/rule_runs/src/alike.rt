// Hits in a row that have one symbol, told at once.
ghost use Rattle.std.specs.Prelude.{◌≡◌, ◌<◌, ◌≤◌, ◌++◌, ℕ, List, [], Some, None, IfOk, IfSome, OnErr, drop, reverse, slice_get, slice_range};
ghost use Rattle.rule_runs.specs.Alike.{symbols, alike_symbols, first_symbols, AreAlike};
ghost use Rattle.rule_runs.specs.declared.listing.Hit.{Hit};
ghost use Rattle.rule_runs.specs.declared.listing.Part.TheVariants.{List as PartList};
ghost use Rattle.rule_runs.specs.Listing.{coming, list_hits, part_hits, parts_hits, AreEarlier, IsComing};

use crate::listing::{Level, Part};
use std::alloc::{AllocError, Global};

/// So many hits in a row that have one symbol.
#[derive(Clone, Copy, Debug, PartialEq, Eq, Drop)]
pub struct AlikeHits {
    pub symbol: usize,
    pub count: u64,
}

// For each list its hits, where all have one symbol and a machine word counts them.
pub(crate) fn alike_lists(
    alloc: Global,
    lists: &[Vec<Part>],
) -> Result<Vec<Option<AlikeHits>>, AllocError>
    requires { AreEarlier lists.now }
    ensures { IfOk result (λ alike. AreAlike (list_hits lists.now) alike.items) }
{
    let mut known = Vec::with_capacity(alloc, lists.len())?;
    'lists: for parts in lists {
        let alike = alike_parts(parts.as_slice(), known.as_slice());
        known.push(alike)?;
    }
    Ok(known)
}

// The hits of parts, where all have one symbol.
fn alike_parts(parts: &[Part], known: &[Option<AlikeHits>]) -> Option<AlikeHits>
    ensures { (hits : List (List Hit)) → AreAlike hits known.now → IfSome result (λ alike. symbols (parts_hits hits parts.now) ≡ alike_symbols alike) }
{
    let mut all = AlikeHits {
        symbol: 0,
        count: 0,
    };
    'parts: for part in parts {
        let Some(next) = alike_part(*part, known) else {
            return None;
        };
        let Some(both) = joined(all, next) else {
            return None;
        };
        all = both;
    }
    Some(all)
}

// The hits of a part, where all have one symbol.
fn alike_part(part: Part, known: &[Option<AlikeHits>]) -> Option<AlikeHits>
    ensures alike { (hits : List (List Hit)) → AreAlike hits known.now → IfSome result (λ alike. symbols (part_hits hits part) ≡ alike_symbols alike) }
    ensures list { result ≡ None → (at list : ℕ) × (part ≡ PartList at list) }
{
    match part {
        Part::Node { at: _, symbol } => Some(AlikeHits {
            symbol: symbol as usize,
            count: 1,
        }),
        Part::List { at: _, list } => alike_list(list as usize, known),
    }
}

// The hits of a list, where all are known to have one symbol.
fn alike_list(list: usize, known: &[Option<AlikeHits>]) -> Option<AlikeHits>
    ensures { (alike : AlikeHits) → result ≡ Some alike → slice_get known.now list ≡ Some (Some alike) }
{
    match known.get(list) {
        Some(alike) => *alike,
        None => None,
    }
}

// Hits and those behind them, where all have one symbol.
fn joined(first: AlikeHits, second: AlikeHits) -> Option<AlikeHits>
    ensures { IfSome result (λ both. alike_symbols first ++ alike_symbols second ≡ alike_symbols both) }
{
    if first.count == 0 {
        return Some(second);
    }
    if first.symbol != second.symbol {
        return None;
    }
    match first.count.checked_add(second.count) {
        Some(count) => Some(AlikeHits {
            symbol: first.symbol,
            count,
        }),
        None => None,
    }
}

// The next hits that are known to have one symbol; the levels keep the place. After a refusal the same hits are still to come.
pub(crate) fn next_alike(
    lists: &[Vec<Part>],
    known: &[Option<AlikeHits>],
    levels: &mut Vec<Level>,
) -> Result<Option<AlikeHits>, AllocError>
    requires coming { IsComing lists.now (reverse levels.old.items) }
    requires known { AreAlike (list_hits lists.now) known.now }
    ensures next { IfOk result (λ hits. symbols (coming lists.now (reverse levels.old.items)) ≡ first_symbols hits ++ symbols (coming lists.now (reverse levels.new.items))) }
    ensures rest { IfOk result (λ next. IfSome next (λ hits. coming lists.now (reverse levels.new.items) ≡ drop hits.count (coming lists.now (reverse levels.old.items)))) }
    ensures some { IfOk result (λ next. IfSome next (λ hits. 0 < hits.count)) }
    ensures end { IfOk result (λ hits. hits ≡ None → coming lists.now (reverse levels.old.items) ≡ []) }
    ensures refused { OnErr result (coming lists.now (reverse levels.new.items) ≡ coming lists.now (reverse levels.old.items)) }
    ensures coming { IsComing lists.now (reverse levels.new.items) }
{
    'levels: loop {
        let Some(top) = levels.len().checked_sub(1) else {
            return Ok(None);
        };
        let level = levels[top];
        let parts = lists[level.list].as_slice();
        if level.next >= parts.len() {
            levels.truncate(top);
            continue 'levels;
        }
        let part = parts[level.next];
        if let Some(first) = alike_part(part, known) {
            let run = run_of(first, parts, level.next + 1, known);
            levels[top] = Level {
                list: level.list,
                next: run.end,
                from: level.from,
            };
            return Ok(Some(run.hits));
        }
        // What isn't alike is a list.
        if let Part::List { at, list } = part {
            levels.push(Level {
                list: list as usize,
                next: 0,
                from: level.from + at,
            })?;
            levels[top] = Level {
                list: level.list,
                next: level.next + 1,
                from: level.from,
            };
        }
    }
}

// Hits that have one symbol, and the place behind the last of their parts.
#[derive(Clone, Copy, Drop)]
struct AlikeRun {
    hits: AlikeHits,
    end: usize,
}

// Hits, and with them those of the parts from a place on that have the same symbol.
fn run_of(first: AlikeHits, parts: &[Part], start: usize, known: &[Option<AlikeHits>]) -> AlikeRun
    ensures end { start ≤ result.end }
    ensures some { first.count ≤ result.hits.count }
    ensures told { (hits : List (List Hit)) → AreAlike hits known.now → alike_symbols first ++ symbols (parts_hits hits (slice_range parts.now start result.end)) ≡ alike_symbols result.hits }
{
    let mut run = AlikeRun {
        hits: first,
        end: start,
    };
    'parts: while run.end < parts.len() {
        let Some(next) = alike_part(parts[run.end], known) else {
            return run;
        };
        let Some(both) = joined(run.hits, next) else {
            return run;
        };
        run = AlikeRun {
            hits: both,
            end: run.end + 1,
        };
    }
    run
}
