// The top call, which reads a script and does its lines.
ghost use Rattle.std.specs.Prelude.{◌≡◌, ◌≢◌, ◌⊎◌, ◌≤◌, ℕ, List, [], ◌∷◌, MatchResult, map};
ghost use Rattle.std.specs.Option.{option_copied};
ghost use Rattle.std.specs.String.{string_bytes};
ghost use Rattle.tree_outside.specs.Outside.{HasCause, Rose, Takes};
ghost use Rattle.tree_outside.specs.Shelf.{Keeps};
ghost use Rattle.store_words.specs.Words.{IsWords};
ghost use Rattle.store_words.specs.declared.words.Settings.{Settings};
ghost use Rattle.store_core.specs.Worlds.{world};
ghost use Rattle.store_shell.specs.Lines.{IsOneLine, kept};
ghost use Rattle.store_shell.specs.Feeding.{Ends, Feeds};
ghost use Rattle.store_shell.specs.Serving.{Script, Serves, AreSettings, IsRefused};

use crate::line::Line;
use crate::parse::{Parsed, parse};
use crate::status::Status;
use read_steps::Steps;
use std::alloc::Global;
use std::sync::ledger::Ledger;
use store_core::{Session, SinkFailed};
use store_words::{Settings, WordsError, read_settings};
use tree_outside::{Failed, Shelf, Sink, Source};

/// How many bytes of a script are taken.
const SCRIPT_LIMIT: usize = 1 << 30;

/// How many bytes of a script are read at once.
const PIECE: usize = 4096;

/// Whether a script goes on behind a line.
#[derive(Clone, Copy)]
enum Flow {
    On,
    Quit,
}

/// Reads the script from the source, does each line's command on the session and the shelf, and writes its text to the sink, by the
/// settings that the words give. Words that give none are refused.
pub fn serve<S: Source, K: Sink, F: Shelf, L: Ledger>(
    alloc: Global,
    words: &[String],
    session: &mut Session,
    source: &mut S,
    sink: &mut K,
    shelf: &mut F,
    steps: &mut Steps<L>,
) -> Status
    ensures serves { (settings : Settings) × AreSettings (map string_bytes words.now) result settings
        × (script : Script) × Takes (S.left source.old) (S.left source.new) script.bytes
        × Serves settings script (S.left source.old) result
        (world session.old (F.told shelf.old) (F.faults shelf.old)) (world session.new (F.told shelf.new) (F.faults shelf.new))
        (K.got sink.old) (K.got sink.new) }
    ensures untouched { IsRefused result → (source.new ≡ source.old) × (sink.new ≡ sink.old) × (shelf.new ≡ shelf.old) }
    ensures later { (S.faults source.old ≤ S.faults source.new) × (K.faults sink.old ≤ K.faults sink.new) × (F.faults shelf.old ≤ F.faults shelf.new) }
    ensures kept { Keeps (K.kept sink.old) (K.kept sink.new) }
    ensures words { result ≡ Status.Words → (rank repair : ℕ) → IsWords (map string_bytes words.now) rank repair → ⊥ }
    ensures refused { ((rank repair : ℕ) → IsWords (map string_bytes words.now) rank repair → ⊥) → (result ≡ Status.Words) ⊎ (result ≡ Status.Memory) }
    ensures read_fault { result ≡ Status.ReadFault → Rose (S.faults source.old) (S.faults source.new) }
    ensures write_fault { result ≡ Status.WriteFault → Rose (K.faults sink.old) (K.faults sink.new) }
{
    match read_settings(alloc, words) {
        Ok(settings) => serve_by(alloc, settings, session, source, sink, shelf, steps),
        Err(WordsError::Bad) => Status::Words,
        Err(WordsError::Memory) => Status::Memory,
    }
}

/// Does a script by these settings.
fn serve_by<S: Source, K: Sink, F: Shelf, L: Ledger>(
    alloc: Global,
    settings: Settings,
    session: &mut Session,
    source: &mut S,
    sink: &mut K,
    shelf: &mut F,
    steps: &mut Steps<L>,
) -> Status
    requires rank { (1 ≤ settings.rank) × (settings.rank ≤ 8) }
    ensures serves { (script : Script) × Takes (S.left source.old) (S.left source.new) script.bytes
        × Serves settings script (S.left source.old) result
        (world session.old (F.told shelf.old) (F.faults shelf.old)) (world session.new (F.told shelf.new) (F.faults shelf.new))
        (K.got sink.old) (K.got sink.new) }
    ensures untouched { IsRefused result → (source.new ≡ source.old) × (sink.new ≡ sink.old) × (shelf.new ≡ shelf.old) }
    ensures later { (S.faults source.old ≤ S.faults source.new) × (K.faults sink.old ≤ K.faults sink.new) × (F.faults shelf.old ≤ F.faults shelf.new) }
    ensures kept { Keeps (K.kept sink.old) (K.kept sink.new) }
    ensures words { result ≢ Status.Words }
    ensures read_fault { result ≡ Status.ReadFault → Rose (S.faults source.old) (S.faults source.new) }
    ensures write_fault { result ≡ Status.WriteFault → Rose (K.faults sink.old) (K.faults sink.new) }
{
    let Ok(mut line) = Line::new(alloc) else {
        return Status::Memory;
    };
    let mut piece = [0u8; PIECE];
    let mut taken = 0;
    while taken < SCRIPT_LIMIT {
        let room = PIECE.min(SCRIPT_LIMIT - taken);
        match source.read(&mut piece[..room]) {
            Err(Failed) => return Status::ReadFault,
            Ok(0) => {
                let last = end_line(alloc, session, line.bytes(), settings, sink, shelf, steps);
                return last_status(last);
            }
            Ok(count) => {
                taken += count;
                let piece = &piece[..count];
                match feed(
                    alloc, session, &mut line, piece, settings, sink, shelf, steps,
                ) {
                    Ok(Flow::On) => {}
                    Ok(Flow::Quit) => return Status::Done,
                    Err(SinkFailed) => return Status::WriteFault,
                }
            }
        }
    }
    Status::LongScript
}

/// The status after the unfinished last line.
fn last_status(last: Result<Flow, SinkFailed>) -> Status
    ensures { MatchResult last (λ _. result ≡ Status.Done) (λ _. result ≡ Status.WriteFault) }
{
    match last {
        Ok(_) => Status::Done,
        Err(SinkFailed) => Status::WriteFault,
    }
}

/// Takes the next piece of the script, and does each line that ends in it, up to a `quit`.
fn feed<K: Sink, F: Shelf, L: Ledger>(
    alloc: Global,
    session: &mut Session,
    line: &mut Line,
    piece: &[u8],
    settings: Settings,
    sink: &mut K,
    shelf: &mut F,
    steps: &mut Steps<L>,
) -> Result<Flow, SinkFailed>
    requires rank { (1 ≤ settings.rank) × (settings.rank ≤ 8) }
    ensures feeds { (part : List ℕ) → IsOneLine part → line.old ≡ kept part → Feeds settings part piece.now result
        (world session.old (F.told shelf.old) (F.faults shelf.old)) (world session.new (F.told shelf.new) (F.faults shelf.new))
        (K.got sink.old) (K.got sink.new) line.new }
    ensures later { F.faults shelf.old ≤ F.faults shelf.new }
    ensures kept { Keeps (K.kept sink.old) (K.kept sink.new) }
    ensures cause { HasCause (K.faults sink.old) (K.faults sink.new) result }
{
    for byte in piece {
        match feed_byte(alloc, session, line, *byte, settings, sink, shelf, steps)? {
            Flow::On => {}
            Flow::Quit => return Ok(Flow::Quit),
        }
    }
    Ok(Flow::On)
}

/// Takes the next byte of the script, and does the line that it ends.
fn feed_byte<K: Sink, F: Shelf, L: Ledger>(
    alloc: Global,
    session: &mut Session,
    line: &mut Line,
    byte: u8,
    settings: Settings,
    sink: &mut K,
    shelf: &mut F,
    steps: &mut Steps<L>,
) -> Result<Flow, SinkFailed>
    requires rank { (1 ≤ settings.rank) × (settings.rank ≤ 8) }
    ensures feeds { (part : List ℕ) → IsOneLine part → line.old ≡ kept part → Feeds settings part (byte ∷ []) result
        (world session.old (F.told shelf.old) (F.faults shelf.old)) (world session.new (F.told shelf.new) (F.faults shelf.new))
        (K.got sink.old) (K.got sink.new) line.new }
    ensures later { F.faults shelf.old ≤ F.faults shelf.new }
    ensures kept { Keeps (K.kept sink.old) (K.kept sink.new) }
    ensures cause { HasCause (K.faults sink.old) (K.faults sink.new) result }
{
    if byte != b'\n' {
        line.push(byte);
        return Ok(Flow::On);
    }
    let done = end_line(alloc, session, line.bytes(), settings, sink, shelf, steps);
    line.clear();
    done
}

/// Does one line, which is None where it is too long.
fn end_line<K: Sink, F: Shelf, L: Ledger>(
    alloc: Global,
    session: &mut Session,
    line: Option<&[u8]>,
    settings: Settings,
    sink: &mut K,
    shelf: &mut F,
    steps: &mut Steps<L>,
) -> Result<Flow, SinkFailed>
    requires rank { (1 ≤ settings.rank) × (settings.rank ≤ 8) }
    ensures ends { (bytes : List ℕ) → option_copied line.entry ≡ kept bytes → Ends settings bytes result
        (world session.old (F.told shelf.old) (F.faults shelf.old)) (world session.new (F.told shelf.new) (F.faults shelf.new))
        (K.got sink.old) (K.got sink.new) }
    ensures later { F.faults shelf.old ≤ F.faults shelf.new }
    ensures kept { Keeps (K.kept sink.old) (K.kept sink.new) }
    ensures cause { HasCause (K.faults sink.old) (K.faults sink.new) result }
{
    match parse(line) {
        Parsed::Empty => {}
        Parsed::Long => sink.write(b"! long-line\n")?,
        Parsed::Bad => sink.write(b"! bad-command\n")?,
        Parsed::Quit => return Ok(Flow::Quit),
        Parsed::Command(command) => {
            session.command(alloc, command, settings, sink, shelf, steps)?;
        }
    }
    Ok(Flow::On)
}
