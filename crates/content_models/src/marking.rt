// Sets of places, one word for each model of a schema, and the places of one row as bits.
ghost use Rattle.std.specs.Prelude.{◌≡◌, ◌==◌, ◌≤◌, get_or, length, if◌then◌else◌};
ghost use Rattle.std.specs.List.{list_all};
ghost use Rattle.content_models.specs.Checking.{goes_on, marked, next_bits, next_sets, no_sets, opened};

use crate::ways::Spot;

/// For each model no place.
pub(crate) const NO_SETS: [u64; 64] = [0; 64];

fn set_of(sets: &[u64], model: usize) -> u64
    ensures { result ≡ get_or sets.now model 0 }
{
    match sets.get(model) {
        Some(set) => *set,
        None => 0,
    }
}

/// Whether a chain can be read behind a place.
fn goes_on(sets: &[u64], ended: bool, spot: Spot) -> bool
    ensures { result ≡ goes_on sets.now ended spot }
{
    spot.next.leads(set_of(sets, spot.model), ended)
}

fn mark(sets: &mut [u64], spot: Spot)
    ensures { sets.new ≡ marked sets.old spot }
{
    if spot.model < sets.len() {
        sets[spot.model] |= spot.bit;
    }
}

fn mark_if(wanted: bool, sets: &mut [u64], spot: Spot)
    ensures { sets.new ≡ (if wanted then marked sets.old spot else sets.old) }
{
    if wanted {
        mark(sets, spot);
    }
}

/// Marks the places of a row whose bits are set, the first lowest.
pub(crate) fn open(row: &[Spot], bits: u64, sets: &mut [u64])
    ensures { sets.new ≡ opened row.now bits sets.old }
{
    let mut left = bits;
    'row: for spot in row {
        mark_if(left % 2 == 1, sets, *spot);
        left /= 2;
    }
}

/// Marks the places of a row behind which the chain can be read.
pub(crate) fn next_sets(sets: &[u64], ended: bool, row: &[Spot], next: &mut [u64])
    ensures { next.new ≡ next_sets sets.now ended row.now next.old }
{
    'row: for spot in row {
        if goes_on(sets, ended, *spot) {
            mark(next, *spot);
        }
    }
}

/// The places of a row behind which the chain can be read, as bits.
pub(crate) fn next_bits(sets: &[u64], ended: bool, row: &[Spot]) -> u64
    requires { length row.now ≤ 64 }
    ensures { result ≡ next_bits sets.now ended row.now }
{
    let mut bits: u64 = 0;
    let mut left = row.len();
    while left > 0 {
        left -= 1;
        bits = 2 * bits + u64::from(goes_on(sets, ended, row[left]));
    }
    bits
}

pub(crate) fn are_empty(sets: &[u64]) -> bool
    ensures { result ≡ list_all (λ w. w == 0) sets.now }
{
    'sets: for set in sets {
        if *set != 0 {
            return false;
        }
    }
    true
}
