// Printing the nodes that a query selects.
ghost use Rattle.std.specs.Prelude.{◌≡◌, ◌++◌, ◌≤◌, [], OnOk, MatchResult, IsSome, length};
ghost use Rattle.rule_runs.specs.Answering.{listed_hits};
ghost use Rattle.tree_outside.specs.Outside.{GetsFront, HasCause, Writes};
ghost use Rattle.tree_outside.specs.Shelf.{Keeps};
ghost use Rattle.store_core.specs.Printed.{Gathers, Passes, hit_line, hit_lines};
ghost use Rattle.store_core.specs.Texts.{kind_word as word_of_kind, node_line};

use crate::answer::{AnswerLine, add, add_number};
use arrayvec::ArrayVec;
use plain_tree::{Kind, Names};
use rule_runs::Hit;
use std::alloc::{AllocError, Global};
use tree_outside::{Failed, Sink};
use value_runs::ValueRun;

/// How many bytes are gathered before they are written.
const ROOM: usize = 4096;

/// What is gathered.
pub(crate) type Held = ArrayVec<u8, 4096>;

/// Prints a line for each node that is hit, with a write for some kilobytes. Where there is no memory for all, it prints the lines of
/// some first ones.
pub(crate) fn print_hits<K: Sink>(
    alloc: Global,
    found: &ValueRun,
    names: &Names,
    sink: &mut K,
) -> Result<Result<(), AllocError>, Failed>
    requires listed { IsSome found.now.hits }
    ensures prints { MatchResult result (λ done. Gathers (K.got sink.old) (K.got sink.new) (hit_line names.now) (listed_hits found.now.hits) done []) (λ _. GetsFront (K.got sink.old) (K.got sink.new) (hit_lines names.now (listed_hits found.now.hits))) }
    ensures kept { Keeps (K.kept sink.old) (K.kept sink.new) }
    ensures cause { HasCause (K.faults sink.old) (K.faults sink.new) result }
{
    let mut held: Held = ArrayVec::new();
    let done = gather_hits(alloc, found, names, &mut held, sink)?;
    write_held(&mut held, sink)?;
    Ok(done)
}

// Gathers the lines of the nodes that are hit.
fn gather_hits<K: Sink>(
    alloc: Global,
    found: &ValueRun,
    names: &Names,
    held: &mut Held,
    sink: &mut K,
) -> Result<Result<(), AllocError>, Failed>
    requires listed { IsSome found.now.hits }
    requires fresh { held.old.items ≡ [] }
    ensures gathers { MatchResult result (λ done. Gathers (K.got sink.old) (K.got sink.new) (hit_line names.now) (listed_hits found.now.hits) done held.new.items) (λ _. GetsFront (K.got sink.old) (K.got sink.new) (hit_lines names.now (listed_hits found.now.hits))) }
    ensures kept { Keeps (K.kept sink.old) (K.kept sink.new) }
    ensures cause { HasCause (K.faults sink.old) (K.faults sink.new) result }
{
    let mut answers = match found.answers(alloc) {
        Ok(answers) => answers,
        Err(error) => return Ok(Err(error)),
    };
    'hits: loop {
        match answers.next_hit() {
            Ok(Some(hit)) => put_hit(held, hit, names, sink)?,
            Ok(None) => return Ok(Ok(())),
            Err(error) => return Ok(Err(error)),
        }
    }
}

// Gathers the line of one node.
fn put_hit<K: Sink>(held: &mut Held, hit: Hit, names: &Names, sink: &mut K) -> Result<(), Failed>
    ensures passes { Passes (K.got sink.old) (K.got sink.new) (held.old.items ++ hit_line names.now hit) result held.new.items }
    ensures kept { Keeps (K.kept sink.old) (K.kept sink.new) }
    ensures cause { HasCause (K.faults sink.old) (K.faults sink.new) result }
{
    match names.at(hit.symbol) {
        Some((kind, name)) => put_node(held, hit.number, kind, name, sink),
        None => Ok(()),
    }
}

fn put_node<K: Sink>(
    held: &mut Held,
    number: u64,
    kind: Kind,
    name: &[u8],
    sink: &mut K,
) -> Result<(), Failed>
    ensures passes { Passes (K.got sink.old) (K.got sink.new) (held.old.items ++ node_line number (kind, name.now)) result held.new.items }
    ensures kept { Keeps (K.kept sink.old) (K.kept sink.new) }
    ensures cause { HasCause (K.faults sink.old) (K.faults sink.new) result }
{
    let mut front: AnswerLine = ArrayVec::new();
    add_number(&mut front, number);
    add(&mut front, b" ");
    add(&mut front, kind_word(kind));
    put(held, front.as_slice(), sink)?;
    put(held, name, sink)?;
    put(held, b"\n", sink)
}

// The word for a kind, and a space where a name follows.
fn kind_word(kind: Kind) -> &'static [u8]
    ensures word { result.now ≡ word_of_kind kind }
    ensures short { length result.now ≤ 12 }
{
    match kind {
        Kind::Document => b"document",
        Kind::Element => b"element ",
        Kind::Attribute => b"attribute ",
        Kind::Text => b"text",
        Kind::Comment => b"comment",
        Kind::Instruction => b"instruction ",
    }
}

// Holds bytes behind those that are held, of which it makes room by a write. Those for which there is never room are written.
fn put<K: Sink>(held: &mut Held, bytes: &[u8], sink: &mut K) -> Result<(), Failed>
    ensures passes { Passes (K.got sink.old) (K.got sink.new) (held.old.items ++ bytes.now) result held.new.items }
    ensures kept { Keeps (K.kept sink.old) (K.kept sink.new) }
    ensures cause { HasCause (K.faults sink.old) (K.faults sink.new) result }
{
    if bytes.len() <= held.remaining_capacity() {
        add(held, bytes);
        return Ok(());
    }
    write_held(held, sink)?;
    if bytes.len() > ROOM {
        return sink.write(bytes);
    }
    add(held, bytes);
    Ok(())
}

/// Writes what is held, if anything.
pub(crate) fn write_held<K: Sink>(held: &mut Held, sink: &mut K) -> Result<(), Failed>
    ensures written { Writes (K.got sink.old) (K.got sink.new) result held.old.items }
    ensures empty { OnOk result (held.new.items ≡ []) }
    ensures kept { Keeps (K.kept sink.old) (K.kept sink.new) }
    ensures cause { HasCause (K.faults sink.old) (K.faults sink.new) result }
{
    if held.is_empty() {
        return Ok(());
    }
    sink.write(held.as_slice())?;
    held.clear();
    Ok(())
}
