// What a shelf does with its pending file, as tree_outside promises it.
ghost use Rattle.tree_outside.specs.Outside.{HasCause};
ghost use Rattle.tree_outside.specs.Shelf.{Changes, appended, sealed};

use tree_outside::{Failed, Shelf};

/// The pending file of a shelf gets these bytes behind its own, or nothing is pending.
pub fn shelf_append_told<F: Shelf>(shelf: &mut F, bytes: &[u8]) -> Result<(), Failed>
    ensures content { Changes (F.told shelf.old) (F.told shelf.new) result (appended bytes.now) }
    ensures cause { HasCause (F.faults shelf.old) (F.faults shelf.new) result }
{
    shelf.append(bytes)
}

/// The pending file takes the place of the file of its name. A failure leaves all files as they were, and is counted.
pub fn shelf_seal_told<F: Shelf>(shelf: &mut F) -> Result<(), Failed>
    ensures content { Changes (F.told shelf.old) (F.told shelf.new) result sealed }
    ensures cause { HasCause (F.faults shelf.old) (F.faults shelf.new) result }
{
    shelf.seal()?;
    Ok(())
}
