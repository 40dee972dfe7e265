// Places in lists as 32 bits. A run over many rules waits for memory most of all, and takes less of it so than with words.
ghost use Rattle.std.specs.Prelude.{◌≡◌, IfOk};

use std::alloc::AllocError;

// A place as 32 bits. One behind 2^32 others is refused, as memory is for them.
pub(crate) fn short(place: usize) -> Result<u32, AllocError>
    ensures { IfOk result (λ same. same ≡ place) }
{
    match u32::try_from(place) {
        Ok(same) => Ok(same),
        Err(_) => Err(AllocError),
    }
}
