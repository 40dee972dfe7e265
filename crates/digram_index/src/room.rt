// Room in lists that grow.
ghost use Rattle.std.specs.Prelude.{◌≡◌, ◌+◌, ◌≤◌, ℕ, length, get_or, vec_len, vec_capacity, IsOk, OnOk};

use std::alloc::AllocError;

// A list doubles up to so many items. From then on it grows by these, or by an eighth.
const STEP: usize = 1024;

/// Makes room for more items, and for some beyond them: so many small calls copy an item a few times in all, and little of a long list stays
/// empty.
pub fn make_room<T: Drop>(items: &mut Vec<T>, more: usize) -> Result<(), AllocError>
    ensures items { items.new.items ≡ items.old.items }
    ensures room { OnOk result (vec_len items.old + more ≤ vec_capacity items.new) }
    ensures kept { vec_capacity items.old ≤ vec_capacity items.new }
    ensures succeeds { vec_len items.old + more ≤ vec_capacity items.old → IsOk result }
{
    let count = items.len();
    if more <= items.capacity() - count {
        return Ok(());
    }
    items.reserve_exact(more.max(count.min(STEP)).max(count / 8))
}

/// Adds zeros until there are `limit` numbers.
pub fn fill(numbers: &mut Vec<u32>, limit: usize) -> Result<(), AllocError>
    ensures numbers { (k : ℕ) → get_or numbers.new.items k 0 ≡ get_or numbers.old.items k 0 }
    ensures more { length numbers.old.items ≤ length numbers.new.items }
    ensures most { (m : ℕ) → limit ≤ m → length numbers.old.items ≤ m → length numbers.new.items ≤ m }
    ensures room { OnOk result (limit ≤ length numbers.new.items) }
    ensures succeeds { limit ≤ length numbers.old.items → IsOk result }
{
    let count = numbers.len();
    make_room(numbers, limit.saturating_sub(count))?;
    for _ in count..limit {
        numbers.push(0)?;
    }
    Ok(())
}
