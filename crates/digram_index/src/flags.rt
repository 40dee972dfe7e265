// Flags of numbers. Behind the end of the list none is set.
ghost use Rattle.std.specs.Prelude.{◌≡◌, ◌≢◌, ◌<◌, ℕ, length, get_or, MatchBool, OnOk, true, false};

use crate::room::make_room;
use std::alloc::AllocError;

/// Sets the flag of a number where there is memory, and tells whether it did.
pub fn set(flags: &mut Vec<bool>, number: usize) -> bool
    ensures here { MatchBool result (get_or flags.new.items number false ≡ true) (get_or flags.new.items number false ≡ get_or flags.old.items number false) }
    ensures others { (k : ℕ) → k ≢ number → get_or flags.new.items k false ≡ get_or flags.old.items k false }
{
    if extend(flags, number).is_err() {
        return false;
    }
    flags[number] = true;
    true
}

/// Takes the flag of a number away.
pub fn clear(flags: &mut Vec<bool>, number: usize)
    ensures here { get_or flags.new.items number false ≡ false }
    ensures others { (k : ℕ) → k ≢ number → get_or flags.new.items k false ≡ get_or flags.old.items k false }
{
    if let Some(flag) = flags.get_mut(number) {
        *flag = false;
    }
}

/// Takes all flags away.
pub fn clear_all(flags: &mut Vec<bool>)
    ensures { (k : ℕ) → get_or flags.new.items k false ≡ false }
{
    flags.fill(false);
}

/// Whether the flag of a number is set.
pub fn is_set(flags: &[bool], number: usize) -> bool
    ensures { result ≡ get_or flags.now number false }
{
    match flags.get(number) {
        Some(&flag) => flag,
        None => false,
    }
}

// Adds flags that aren't set until the number has one.
fn extend(flags: &mut Vec<bool>, number: usize) -> Result<(), AllocError>
    ensures flags { (k : ℕ) → get_or flags.new.items k false ≡ get_or flags.old.items k false }
    ensures room { OnOk result (number < length flags.new.items) }
{
    let count = flags.len();
    if number < count {
        return Ok(());
    }
    make_room(flags, number - count)?;
    for _ in count..number {
        flags.push(false)?;
    }
    flags.push(false)?;
    Ok(())
}
