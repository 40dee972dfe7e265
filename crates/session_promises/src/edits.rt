// Edits of one node and of all that a query selects, as the session promises them.
ghost use Rattle.std.specs.Prelude.{◌≤◌, List, ℕ};
ghost use Rattle.tree_outside.specs.Outside.{Writes};
ghost use Rattle.store_core.specs.Acts.{Rename, Insert, Delete, Attr, RenameAll, DeleteAll};
ghost use Rattle.store_core.specs.Machine.{Step};
ghost use Rattle.store_core.specs.Worlds.{world};

use read_steps::Steps;
use std::alloc::Global;
use std::sync::ledger::Ledger;
use store_core::{Command, Session, Settings, SinkFailed};
use tree_outside::{Shelf, Sink};

/// The node with this number gets this name, where the edit is allowed.
pub fn rename_told<K: Sink, F: Shelf, L: Ledger>(
    session: &mut Session,
    alloc: Global,
    number: u64,
    name: &[u8],
    settings: Settings,
    sink: &mut K,
    shelf: &mut F,
    steps: &mut Steps<L>,
) -> Result<(), SinkFailed>
    requires { (1 ≤ settings.rank) × (settings.rank ≤ 8) }
    ensures { (out : List ℕ)
        × Step settings (Rename number name.now)
        (world session.old (F.told shelf.old) (F.faults shelf.old)) out
        (world session.new (F.told shelf.new) (F.faults shelf.new))
        × Writes (K.got sink.old) (K.got sink.new) result out }
{
    session.command(
        alloc,
        Command::Rename { number, name },
        settings,
        sink,
        shelf,
        steps,
    )
}

/// The nodes that the bytes spell come to stand before the node with this number.
pub fn insert_told<K: Sink, F: Shelf, L: Ledger>(
    session: &mut Session,
    alloc: Global,
    number: u64,
    fragment: &[u8],
    settings: Settings,
    sink: &mut K,
    shelf: &mut F,
    steps: &mut Steps<L>,
) -> Result<(), SinkFailed>
    requires { (1 ≤ settings.rank) × (settings.rank ≤ 8) }
    ensures { (out : List ℕ)
        × Step settings (Insert number fragment.now)
        (world session.old (F.told shelf.old) (F.faults shelf.old)) out
        (world session.new (F.told shelf.new) (F.faults shelf.new))
        × Writes (K.got sink.old) (K.got sink.new) result out }
{
    session.command(
        alloc,
        Command::Insert { number, fragment },
        settings,
        sink,
        shelf,
        steps,
    )
}

/// The node with this number goes, with all below it and its texts.
pub fn delete_told<K: Sink, F: Shelf, L: Ledger>(
    session: &mut Session,
    alloc: Global,
    number: u64,
    settings: Settings,
    sink: &mut K,
    shelf: &mut F,
    steps: &mut Steps<L>,
) -> Result<(), SinkFailed>
    requires { (1 ≤ settings.rank) × (settings.rank ≤ 8) }
    ensures { (out : List ℕ)
        × Step settings (Delete number)
        (world session.old (F.told shelf.old) (F.faults shelf.old)) out
        (world session.new (F.told shelf.new) (F.faults shelf.new))
        × Writes (K.got sink.old) (K.got sink.new) result out }
{
    session.command(
        alloc,
        Command::Delete { number },
        settings,
        sink,
        shelf,
        steps,
    )
}

/// The attribute with this name gets this value.
pub fn attr_told<K: Sink, F: Shelf, L: Ledger>(
    session: &mut Session,
    alloc: Global,
    number: u64,
    name: &[u8],
    value: &[u8],
    settings: Settings,
    sink: &mut K,
    shelf: &mut F,
    steps: &mut Steps<L>,
) -> Result<(), SinkFailed>
    requires { (1 ≤ settings.rank) × (settings.rank ≤ 8) }
    ensures { (out : List ℕ)
        × Step settings (Attr number name.now value.now)
        (world session.old (F.told shelf.old) (F.faults shelf.old)) out
        (world session.new (F.told shelf.new) (F.faults shelf.new))
        × Writes (K.got sink.old) (K.got sink.new) result out }
{
    session.command(
        alloc,
        Command::Attr {
            number,
            name,
            value,
        },
        settings,
        sink,
        shelf,
        steps,
    )
}

/// All nodes that the query selects get this name.
pub fn rename_all_told<K: Sink, F: Shelf, L: Ledger>(
    session: &mut Session,
    alloc: Global,
    name: &[u8],
    query: &[u8],
    settings: Settings,
    sink: &mut K,
    shelf: &mut F,
    steps: &mut Steps<L>,
) -> Result<(), SinkFailed>
    requires { (1 ≤ settings.rank) × (settings.rank ≤ 8) }
    ensures { (out : List ℕ)
        × Step settings (RenameAll name.now query.now)
        (world session.old (F.told shelf.old) (F.faults shelf.old)) out
        (world session.new (F.told shelf.new) (F.faults shelf.new))
        × Writes (K.got sink.old) (K.got sink.new) result out }
{
    session.command(
        alloc,
        Command::RenameAll { name, query },
        settings,
        sink,
        shelf,
        steps,
    )
}

/// All nodes that the query selects go, with all below them.
pub fn delete_all_told<K: Sink, F: Shelf, L: Ledger>(
    session: &mut Session,
    alloc: Global,
    query: &[u8],
    settings: Settings,
    sink: &mut K,
    shelf: &mut F,
    steps: &mut Steps<L>,
) -> Result<(), SinkFailed>
    requires { (1 ≤ settings.rank) × (settings.rank ≤ 8) }
    ensures { (out : List ℕ)
        × Step settings (DeleteAll query.now)
        (world session.old (F.told shelf.old) (F.faults shelf.old)) out
        (world session.new (F.told shelf.new) (F.faults shelf.new))
        × Writes (K.got sink.old) (K.got sink.new) result out }
{
    session.command(
        alloc,
        Command::DeleteAll { query },
        settings,
        sink,
        shelf,
        steps,
    )
}
