// Loading and saving, as the session promises it.
ghost use Rattle.std.specs.Prelude.{◌≤◌, List, ℕ};
ghost use Rattle.tree_outside.specs.Outside.{Writes};
ghost use Rattle.store_core.specs.Acts.{Load, LoadGrammar, Save, SaveGrammar};
ghost use Rattle.store_core.specs.Machine.{Step};
ghost use Rattle.store_core.specs.Worlds.{world};

use read_steps::Steps;
use std::alloc::Global;
use std::sync::ledger::Ledger;
use store_core::{Command, Session, Settings, SinkFailed};
use tree_outside::{Shelf, Sink};

/// The document becomes the one that the file's bytes spell, and its grammar is settled for the rank.
pub fn load_told<K: Sink, F: Shelf, L: Ledger>(
    session: &mut Session,
    alloc: Global,
    name: &str,
    settings: Settings,
    sink: &mut K,
    shelf: &mut F,
    steps: &mut Steps<L>,
) -> Result<(), SinkFailed>
    requires { (1 ≤ settings.rank) × (settings.rank ≤ 8) }
    ensures { (out : List ℕ)
        × Step settings (Load name.now)
        (world session.old (F.told shelf.old) (F.faults shelf.old)) out
        (world session.new (F.told shelf.new) (F.faults shelf.new))
        × Writes (K.got sink.old) (K.got sink.new) result out }
{
    session.command(alloc, Command::Load { name }, settings, sink, shelf, steps)
}

/// The document becomes that of the grammar file, and its parts are those of the file.
pub fn load_grammar_told<K: Sink, F: Shelf, L: Ledger>(
    session: &mut Session,
    alloc: Global,
    name: &str,
    settings: Settings,
    sink: &mut K,
    shelf: &mut F,
    steps: &mut Steps<L>,
) -> Result<(), SinkFailed>
    requires { (1 ≤ settings.rank) × (settings.rank ≤ 8) }
    ensures { (out : List ℕ)
        × Step settings (LoadGrammar name.now)
        (world session.old (F.told shelf.old) (F.faults shelf.old)) out
        (world session.new (F.told shelf.new) (F.faults shelf.new))
        × Writes (K.got sink.old) (K.got sink.new) result out }
{
    session.command(
        alloc,
        Command::LoadGrammar { name },
        settings,
        sink,
        shelf,
        steps,
    )
}

/// The file with this name gets the saved bytes of the document.
pub fn save_told<K: Sink, F: Shelf, L: Ledger>(
    session: &mut Session,
    alloc: Global,
    name: &str,
    settings: Settings,
    sink: &mut K,
    shelf: &mut F,
    steps: &mut Steps<L>,
) -> Result<(), SinkFailed>
    requires { (1 ≤ settings.rank) × (settings.rank ≤ 8) }
    ensures { (out : List ℕ)
        × Step settings (Save name.now)
        (world session.old (F.told shelf.old) (F.faults shelf.old)) out
        (world session.new (F.told shelf.new) (F.faults shelf.new))
        × Writes (K.got sink.old) (K.got sink.new) result out }
{
    session.command(alloc, Command::Save { name }, settings, sink, shelf, steps)
}

/// The file with this name gets the names, the grammar and the texts.
pub fn save_grammar_told<K: Sink, F: Shelf, L: Ledger>(
    session: &mut Session,
    alloc: Global,
    name: &str,
    settings: Settings,
    sink: &mut K,
    shelf: &mut F,
    steps: &mut Steps<L>,
) -> Result<(), SinkFailed>
    requires { (1 ≤ settings.rank) × (settings.rank ≤ 8) }
    ensures { (out : List ℕ)
        × Step settings (SaveGrammar name.now)
        (world session.old (F.told shelf.old) (F.faults shelf.old)) out
        (world session.new (F.told shelf.new) (F.faults shelf.new))
        × Writes (K.got sink.old) (K.got sink.new) result out }
{
    session.command(
        alloc,
        Command::SaveGrammar { name },
        settings,
        sink,
        shelf,
        steps,
    )
}
