// The session and its commands.
ghost use Rattle.std.specs.Prelude.{◌≡◌, ◌≤◌, List, [], ℕ, Option, None, IfSome};
ghost use Rattle.tree_outside.specs.Files.{Told};
ghost use Rattle.tree_outside.specs.Outside.{HasCause, Writes};
ghost use Rattle.tree_outside.specs.Shelf.{Keeps};
ghost use Rattle.store_words.specs.declared.words.Settings.{Settings};

use crate::answer::{Answer, Refusal, write_line};
use crate::command::Command;
use crate::loaded::Loaded;
use read_steps::Steps;
use std::alloc::Global;
use std::marker::Model;
use std::sync::ledger::Ledger;
use store_words::Settings;
use thiserror::Error;
use tree_outside::{Failed, Shelf, Sink};
use tree_updates::Store;

/// The sink failed while it got the text of a command.
#[derive(Clone, Copy, Debug, PartialEq, Eq, Drop, Error)]
#[error("the sink failed")]
pub struct SinkFailed;

impl From<Failed> for SinkFailed {
    fn from(_: Failed) -> SinkFailed {
        SinkFailed
    }
}

/// At most one document; contracts see what is held of it.
#[derive(Drop)]
pub struct Session {
    pub loaded: Option<Loaded>,
}

impl Model for Session {
    ghost use Rattle.store_core.specs.Worlds.{State};

    ghost Value = { State };

    ghost use Rattle.std.specs.Option.{option_map};
    ghost use Rattle.store_core.specs.Worlds.{IsLawfulState};
    ghost use Rattle.std.specs.Prelude.{IfSome};
    ghost use Rattle.store_core.specs.StoreOf.{IsCounted, held_of};

    ghost view = { λ a. option_map held_of a.loaded };

    ghost invariant = { λ a. IsLawfulState (option_map held_of a.loaded) × IfSome a.loaded (λ l. IsCounted l.store) };
}

impl Session {
    ghost use Rattle.store_core.specs.Acts.{AsksFewRecords};
    ghost use Rattle.store_core.specs.CommandOf.{act_of};
    ghost use Rattle.store_core.specs.Machine.{Prints, Step};
    ghost use Rattle.store_core.specs.Reads.{AsksFew, AsksFewEdits};
    ghost use Rattle.store_core.specs.Worlds.{IsIdle, IsLawfulState, parts_in, world};
    ghost use Rattle.store_core.specs.StoreOf.{IsCounted, parts_of};
    ghost use Rattle.std.specs.Option.{option_map};

    /// A session without a document. It takes no memory.
    pub fn new() -> Session
        ensures { result ≡ None }
    {
        Session { loaded: None }
    }

    /// The document, and None exactly where nothing is loaded.
    pub fn document(&self) -> Option<&Store>
        ensures sees { option_map (λ s. parts_of s.now) result ≡ parts_in self.now }
        ensures held { IsLawfulState self.now }
        ensures counted { IfSome result (λ s. IsCounted s.now) }
    {
        self.loaded.as_ref().map(|loaded| &loaded.store)
    }

    /// Does one command and prints its text, the last of which is a line that says what it came to. After a loading or where a document was
    /// made no rule has a greater rank than the settings say, from 1 to 8, and after a repair none a greater one than that and than any had before.
    ///
    /// `SinkFailed` comes only where the sink failed; session and shelf are then as after the command, and the sink got a front of the
    /// text. Where the shelf tells that no file was open and none pending, that is so after the command too.
    ///
    /// `query` and `count` take few reads on this counter (`reads`), and so do edits of all nodes of a query (`edit_reads`). No clause says of
    /// others what they read, nor that the last line is one write of the sink.
    pub fn command<K: Sink, F: Shelf, L: Ledger>(
        &mut self,
        alloc: Global,
        command: Command<'_>,
        settings: Settings,
        sink: &mut K,
        shelf: &mut F,
        steps: &mut Steps<L>,
    ) -> Result<(), SinkFailed>
        requires rank { (1 ≤ settings.rank) × (settings.rank ≤ 8) }
        requires records { AsksFewRecords (act_of command) }
        ensures step { (out : List ℕ)
            × Step settings (act_of command.entry)
            (world self.old (F.told shelf.old) (F.faults shelf.old)) out
            (world self.new (F.told shelf.new) (F.faults shelf.new))
            × Writes (K.got sink.old) (K.got sink.new) result out }
        ensures kept { Keeps (K.kept sink.old) (K.kept sink.new) }
        ensures idle { IsIdle (F.told shelf.old) → IsIdle (F.told shelf.new) }
        ensures cause { HasCause (K.faults sink.old) (K.faults sink.new) result }
        ensures reads { AsksFew (act_of command.entry) self.old steps.old steps.new }
        ensures edit_reads { AsksFewEdits (act_of command.entry) self.old steps.old steps.new }
    {
        let outcome = self.outcome(alloc, command, settings, sink, shelf, steps)?;
        write_line(outcome, sink)?;
        Ok(())
    }

    // Does a command, prints what comes before its line, and answers what that is to say.
    fn outcome<K: Sink, F: Shelf, L: Ledger>(
        &mut self,
        alloc: Global,
        command: Command<'_>,
        settings: Settings,
        sink: &mut K,
        shelf: &mut F,
        steps: &mut Steps<L>,
    ) -> Result<Result<Answer, Refusal>, Failed>
        requires rank { (1 ≤ settings.rank) × (settings.rank ≤ 8) }
        requires records { AsksFewRecords (act_of command) }
        ensures lawful { IsLawfulState self.old × IsLawfulState self.new }
        ensures later { F.faults shelf.old ≤ F.faults shelf.new }
        ensures idle { IsIdle (F.told shelf.old) → IsIdle (F.told shelf.new) }
        ensures prints { Prints settings (act_of command.entry) (world self.old (F.told shelf.old) (F.faults shelf.old)) (K.got sink.old) (K.got sink.new) result (world self.new (F.told shelf.new) (F.faults shelf.new)) }
        ensures kept { Keeps (K.kept sink.old) (K.kept sink.new) }
        ensures cause { HasCause (K.faults sink.old) (K.faults sink.new) result }
        ensures reads { AsksFew (act_of command.entry) self.old steps.old steps.new }
        ensures edit_reads { AsksFewEdits (act_of command.entry) self.old steps.old steps.new }
    {
        match command {
            Command::Load { name } => Ok(self.load(alloc, name, settings, shelf)),
            Command::LoadGrammar { name } => Ok(self.load_grammar(alloc, name, shelf)),
            Command::Save { name } => Ok(self.save(alloc, name, shelf, steps)),
            Command::SaveGrammar { name } => Ok(self.save_grammar(name, shelf)),
            Command::Show { number } => self.show(alloc, number, sink, steps),
            Command::Query { text } => self.query(alloc, text, sink, steps),
            Command::ShowAll { text } => self.show_all(alloc, text, sink, steps),
            Command::Count { text } => Ok(self.count(alloc, text, steps)),
            Command::Rename { .. }
            | Command::Insert { .. }
            | Command::Append { .. }
            | Command::Delete { .. }
            | Command::Value { .. }
            | Command::Attr { .. }
            | Command::Copy { .. } => { Ok(self.edit(alloc, command, settings, steps)) }
            Command::RenameAll { .. } | Command::DeleteAll { .. } => {
                Ok(self.edit_all(alloc, command, settings, steps))
            }
            Command::Check { name } => Ok(self.check(alloc, name, shelf, steps)),
            Command::Repair => Ok(self.repair(alloc, settings)),
            Command::RepairWide => Ok(self.repair_wide(alloc, settings)),
            Command::Generate { records } => Ok(self.generate(alloc, records, settings)),
        }
    }
}
