// Reading a file from the shelf whole.
ghost use Rattle.std.specs.Prelude.{◌≤◌, ◌<◌, ◌^◌, true, length, IfOk, IfErr, OnErr, OnOk};
ghost use Rattle.tree_outside.specs.Outside.{Stays};
ghost use Rattle.tree_outside.specs.Shelf.{Becomes, file_opened};
ghost use Rattle.store_core.specs.Acts.{Act};
ghost use Rattle.store_core.specs.Feeding.{HasLeft, OnlyReads};
ghost use Rattle.store_core.specs.Opening.{Finds, ReadsFile};
ghost use Rattle.store_core.specs.Refusals.{Cause};
ghost use Rattle.store_core.specs.Stopping.{StopsReading};
ghost use Rattle.store_core.specs.Worlds.{State, HasFile, IsIdle, told_files, world};

use crate::answer::Refusal;
use crate::reading::FILE_LIMIT;
use std::alloc::Global;
use tree_outside::{Failed, Shelf};

// How many bytes of a file are read at once.
const PIECE: usize = 1 << 14;

/// The bytes of the file with this name.
pub(crate) fn read_file<F: Shelf>(
    alloc: Global,
    name: &str,
    shelf: &mut F,
) -> Result<Vec<u8>, Refusal>
    ensures later { F.faults shelf.old ≤ F.faults shelf.new }
    ensures files { Stays (told_files (F.told shelf.old)) (told_files (F.told shelf.new)) }
    ensures idle { IsIdle (F.told shelf.old) → IsIdle (F.told shelf.new) }
    ensures short { IfOk result (λ bytes. length bytes.items < 2 ^ 30) }
    ensures held { IfOk result (λ bytes. (state : State) → HasFile (world state (F.told shelf.old) (F.faults shelf.old)) name.now bytes.items) }
    ensures refused { IfErr result (λ refusal. (a : Act) (state : State) → ReadsFile a name.now state
        → Cause refusal a (world state (F.told shelf.old) (F.faults shelf.old)) (world state (F.told shelf.new) (F.faults shelf.new))) }
{
    open_file(name, shelf)?;
    let bytes = read_bytes(alloc, shelf);
    shelf.close();
    bytes
}

/// Opens the file with this name, for a command that reads it.
pub(crate) fn open_file<F: Shelf>(name: &str, shelf: &mut F) -> Result<(), Refusal>
    ensures later { F.faults shelf.old ≤ F.faults shelf.new }
    ensures files { Stays (told_files (F.told shelf.old)) (told_files (F.told shelf.new)) }
    ensures idle { OnErr result (IsIdle (F.told shelf.old) → IsIdle (F.told shelf.new)) }
    ensures opened { OnOk result (Finds (F.told shelf.old) name.now true × Becomes (F.told shelf.old) (F.told shelf.new) (file_opened name.now)) }
    ensures refused { IfErr result (λ refusal. (a : Act) (state : State) → ReadsFile a name.now state
        → Cause refusal a (world state (F.told shelf.old) (F.faults shelf.old)) (world state (F.told shelf.new) (F.faults shelf.new))) }
{
    match shelf.open(name) {
        Err(Failed) => Err(Refusal::ReadFault),
        Ok(false) => Err(Refusal::NoFile),
        Ok(true) => Ok(()),
    }
}

// All bytes of the open file.
fn read_bytes<F: Shelf>(alloc: Global, shelf: &mut F) -> Result<Vec<u8>, Refusal>
    ensures later { F.faults shelf.old ≤ F.faults shelf.new }
    ensures files { Stays (told_files (F.told shelf.old)) (told_files (F.told shelf.new)) }
    ensures only { OnlyReads (F.told shelf.old) (F.told shelf.new) }
    ensures left { IfOk result (λ bytes. HasLeft (F.told shelf.old) bytes.items) }
    ensures refused { IfErr result (λ refusal. StopsReading refusal (F.told shelf.old) (F.faults shelf.old) (F.faults shelf.new)) }
{
    let mut piece = [0u8; PIECE];
    let mut bytes = Vec::new(alloc);
    while bytes.len() < FILE_LIMIT {
        let count = match shelf.read(&mut piece) {
            Err(Failed) => return Err(Refusal::ReadFault),
            Ok(0) => return Ok(bytes),
            Ok(count) => count,
        };
        bytes.extend_from_slice(&piece[..count])?;
    }
    Err(Refusal::LongFile)
}
