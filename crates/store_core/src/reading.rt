// Reading the document in the open file, piece by piece.
ghost use Rattle.std.specs.Prelude.{◌≡◌, ◌≤◌, [], IfOk, IfErr, OnOk};
ghost use Rattle.tree_outside.specs.Outside.{Stays};
ghost use Rattle.store_core.specs.Worlds.{told_files};
ghost use Rattle.store_core.specs.Feeding.{HasFed, FeedsFile, OnlyReads};
ghost use Rattle.store_core.specs.Folding.{FoldsOpen};
ghost use Rattle.store_core.specs.Stopping.{StopsDocument, StopsReading};

use crate::answer::Refusal;
use fcns_encoding::{Folded, Folder, Sharing};
use std::alloc::Global;
use tree_outside::{Failed, Shelf};
use xml_profile::{Reader, XmlError};

/// A file must have fewer bytes than this.
pub(crate) const FILE_LIMIT: usize = 1 << 30;

/// A subterm of the code that is used less often has no rule before settling, which then finds smaller rules. Large ones have one
/// sooner, since what is written out is work for settling.
pub(crate) const SHARING: Sharing = Sharing {
    uses: 16,
    large_uses: 3,
    large: 50,
};

/// How many bytes of a file are read at once.
pub(crate) const PIECE: usize = 1 << 16;

/// The document that the open file spells, folded while it is read.
pub(crate) fn read_document<F: Shelf>(alloc: Global, shelf: &mut F) -> Result<Folded, Refusal>
    ensures later { F.faults shelf.old ≤ F.faults shelf.new }
    ensures files { Stays (told_files (F.told shelf.old)) (told_files (F.told shelf.new)) }
    ensures only { OnlyReads (F.told shelf.old) (F.told shelf.new) }
    ensures document { IfOk result (FoldsOpen (F.told shelf.old)) }
    ensures refused { IfErr result (λ refusal. StopsDocument refusal (F.told shelf.old) (F.faults shelf.old) (F.faults shelf.new)) }
{
    let mut reader = Reader::new(alloc)?;
    let mut folder = Folder::new(alloc);
    feed_file(alloc, shelf, &mut reader, &mut folder)?;
    reader.finish()?;
    Ok(folder.finish_with(SHARING)?)
}

// Feeds the open file to the reader, to the file's end, to the limit or to a fault. Bytes that go wrong don't end it, since
// a fault or the limit is told before them: the reader tells them again when it is finished.
fn feed_file<F: Shelf>(
    alloc: Global,
    shelf: &mut F,
    reader: &mut Reader,
    folder: &mut Folder,
) -> Result<(), Refusal>
    requires { HasFed reader.old folder.old [] }
    ensures later { F.faults shelf.old ≤ F.faults shelf.new }
    ensures files { Stays (told_files (F.told shelf.old)) (told_files (F.told shelf.new)) }
    ensures only { OnlyReads (F.told shelf.old) (F.told shelf.new) }
    ensures feeds { OnOk result (FeedsFile (F.told shelf.old) reader.new folder.new) }
    ensures refused { IfErr result (λ refusal. StopsReading refusal (F.told shelf.old) (F.faults shelf.old) (F.faults shelf.new)) }
{
    let mut piece = Vec::new(alloc);
    piece.resize(PIECE, 0)?;
    let mut fed = 0;
    while fed < FILE_LIMIT {
        let count = match shelf.read(&mut piece) {
            Err(Failed) => return Err(Refusal::ReadFault),
            Ok(0) => return Ok(()),
            Ok(count) => count,
        };
        if let Err(XmlError::Memory) = reader.feed(alloc, &piece[..count], folder) {
            return Err(Refusal::Memory);
        }
        fed += count;
    }
    Err(Refusal::LongFile)
}
