// Grammar files, written.
ghost use Rattle.std.specs.Prelude.{◌≡◌, ◌≢◌, ◌+◌, ◌*◌, ◌^◌, ◌<◌, ◌≤◌, [], ◌∷◌, length, OnOk, OnErr, IfOk};
ghost use Rattle.std.specs.List.{flat_map};
ghost use Rattle.tree_outside.specs.Outside.{Gets, GetsFront, HasCause};
ghost use Rattle.tree_outside.specs.Shelf.{Keeps, Loses};
ghost use Rattle.slt_grammar.specs.Grammars.{body_at, rank_at};
ghost use Rattle.slt_grammar.specs.Keyed.{rules_of};
ghost use Rattle.grammar_file.specs.Numbers.{number_bytes};
ghost use Rattle.grammar_file.specs.Buffers.{Puts};
ghost use Rattle.grammar_file.specs.BufferOf.{seen, held_of};
ghost use Rattle.grammar_file.specs.FileBytes.{file_bytes, listed_file_bytes, list_bytes, text_bytes, name_bytes, label_bytes, rule_bytes};

use crate::buffer::Buffer;
use plain_tree::{Kind, Names};
use read_steps::Steps;
use slt_grammar::{Grammar, Label};
use std::marker::Brand;
use std::sync::ledger::{Blank, Ledger};
use text_list::{Dictionary, TextList};
use thiserror::Error;
use tree_outside::{Failed, Sink};

/// Why a grammar file was not written to its end.
#[derive(Clone, Copy, Debug, PartialEq, Eq, Error)]
pub enum WriteError {
    /// The sink failed.
    #[error("the grammar file could not be written")]
    Failed,
    /// There was no memory.
    #[error("there is no memory for the grammar file")]
    Memory,
}

/// Writes the file of a grammar, a table of names and a list of texts, and answers how many bytes it has.
///
/// The symbols of the grammar are the places of their names. The file has the mark `TGF2`, the names, the rules, the different
/// texts in the order of their first places, and for each text its place among these, each list behind its count, and nothing
/// more; its numbers are unsigned LEB128 of the least length. `Failed` comes only where the sink failed, which has then got a
/// front of the file. `Memory` comes before the first byte, and leaves the sink as it was.
pub fn write<K: Sink>(
    grammar: &Grammar,
    names: &Names,
    texts: &TextList,
    sink: &mut K,
) -> Result<u128, WriteError>
    ensures written { OnOk result (Gets (K.got sink.old) (K.got sink.new) (file_bytes names.now (rules_of grammar.now.rules) texts.now.texts)) }
    ensures count { IfOk result (λ count. count ≡ length (file_bytes names.now (rules_of grammar.now.rules) texts.now.texts)) }
    ensures front { OnErr result (GetsFront (K.got sink.old) (K.got sink.new) (file_bytes names.now (rules_of grammar.now.rules) texts.now.texts)) }
    ensures kept { Keeps (K.kept sink.old) (K.kept sink.new) }
    ensures lost { result ≢ Err WriteError.Memory → Loses (K.kept sink.old) (K.got sink.old) (K.got sink.new) result }
    ensures cause { result ≢ Err WriteError.Memory → HasCause (K.faults sink.old) (K.faults sink.new) result }
    ensures memory { result ≡ Err WriteError.Memory → sink.new ≡ sink.old }
{
    let Ok(dictionary) = texts.dictionary() else {
        return Err(WriteError::Memory);
    };
    match write_with(grammar, names, &dictionary, sink) {
        Ok(count) => Ok(count),
        Err(Failed) => Err(WriteError::Failed),
    }
}

/// Writes the file as `write` does, from the dictionary of the texts. It takes no memory, and is refused only where the sink failed,
/// which has then got a front of the file.
pub fn write_with<K: Sink>(
    grammar: &Grammar,
    names: &Names,
    dictionary: &Dictionary<'_>,
    sink: &mut K,
) -> Result<u128, Failed>
    ensures written { OnOk result (Gets (K.got sink.old) (K.got sink.new) (listed_file_bytes names.now (rules_of grammar.now.rules) dictionary.now)) }
    ensures count { IfOk result (λ count. count ≡ length (listed_file_bytes names.now (rules_of grammar.now.rules) dictionary.now)) }
    ensures front { OnErr result (GetsFront (K.got sink.old) (K.got sink.new) (listed_file_bytes names.now (rules_of grammar.now.rules) dictionary.now)) }
    ensures kept { Keeps (K.kept sink.old) (K.kept sink.new) }
    ensures lost { Loses (K.kept sink.old) (K.got sink.old) (K.got sink.new) result }
    ensures cause { HasCause (K.faults sink.old) (K.faults sink.new) result }
{
    let mut out = Buffer::new(sink);
    write_file::<K, Brand>(grammar, names, dictionary, Blank::new(1), &mut out)?;
    Ok(out.count())
}

// Writes the file, with a counter of the ledger `L` for the reads of nodes.
fn write_file<K: Sink, L: Ledger>(
    grammar: &Grammar,
    names: &Names,
    dictionary: &Dictionary<'_>,
    blank: Blank,
    out: &mut Buffer<'_, K>,
) -> Result<(), Failed>
    requires name { blank.name ≡ L.name }
    requires parts { blank.parts ≡ L.parts }
    requires some { 0 < blank.parts }
    ensures puts { Puts (seen K.Sink out.old) (seen K.Sink out.new) result (listed_file_bytes names.now (rules_of grammar.now.rules) dictionary.now) }
    ensures empty { OnOk result (held_of out.new ≡ []) }
    ensures small { OnOk result (length (listed_file_bytes names.now (rules_of grammar.now.rules) dictionary.now) < 2 ^ 128) }
{
    let mut steps: Steps<L> = Steps::new(blank);
    out.bytes(b"TGF2")?;
    write_names(names, out)?;
    write_rules(grammar, &mut steps, out)?;
    write_texts(dictionary, out)?;
    write_places(dictionary, out)?;
    out.flush()
}

fn write_names<K: Sink>(names: &Names, out: &mut Buffer<'_, K>) -> Result<(), Failed>
    ensures puts { Puts (seen K.Sink out.old) (seen K.Sink out.new) result (list_bytes name_bytes names.now) }
    ensures small { OnOk result (length (list_bytes name_bytes names.now) < 2 ^ 126 + 2 ^ 68) }
{
    out.number(names.len() as u64)?;
    let mut place = 0;
    while let Some((kind, name)) = names.at(place) {
        write_name(kind, name, out)?;
        place += 1;
    }
    Ok(())
}

fn write_name<K: Sink>(kind: Kind, name: &[u8], out: &mut Buffer<'_, K>) -> Result<(), Failed>
    ensures puts { Puts (seen K.Sink out.old) (seen K.Sink out.new) result (name_bytes (kind, name.now)) }
    ensures small { OnOk result (length (name_bytes (kind, name.now)) ≤ 2 ^ 63 + 11) }
{
    out.byte(kind.number())?;
    write_text(name, out)
}

fn write_rules<K: Sink, L: Ledger>(
    grammar: &Grammar,
    steps: &mut Steps<L>,
    out: &mut Buffer<'_, K>,
) -> Result<(), Failed>
    ensures puts { Puts (seen K.Sink out.old) (seen K.Sink out.new) result (list_bytes rule_bytes (rules_of grammar.now.rules)) }
    ensures small { OnOk result (length (list_bytes rule_bytes (rules_of grammar.now.rules)) < 2 ^ 68) }
{
    // The call tells that all bodies together are short.
    let _limit = grammar.limit();
    out.number(grammar.rules() as u64)?;
    for rule in 0..grammar.rules() {
        write_rule(grammar, rule, steps, out)?;
    }
    Ok(())
}

fn write_rule<K: Sink, L: Ledger>(
    grammar: &Grammar,
    rule: usize,
    steps: &mut Steps<L>,
    out: &mut Buffer<'_, K>,
) -> Result<(), Failed>
    requires there { rule < length grammar.now.rules }
    requires small { rank_at (rules_of grammar.now.rules) rule ≤ 8 }
    ensures puts { Puts (seen K.Sink out.old) (seen K.Sink out.new) result
        (rank_at (rules_of grammar.now.rules) rule ∷ flat_map label_bytes (body_at (rules_of grammar.now.rules) rule)) }
    ensures small { OnOk result (length (flat_map label_bytes (body_at (rules_of grammar.now.rules) rule)) ≤ 11 * length (body_at (rules_of grammar.now.rules) rule)) }
{
    out.byte(grammar.rank(rule) as u8)?;
    write_body(grammar, rule, steps, out)
}

// Writes the body of a rule in preorder. Two steps a node.
fn write_body<K: Sink, L: Ledger>(
    grammar: &Grammar,
    rule: usize,
    steps: &mut Steps<L>,
    out: &mut Buffer<'_, K>,
) -> Result<(), Failed>
    requires { rule < length grammar.now.rules }
    ensures puts { Puts (seen K.Sink out.old) (seen K.Sink out.new) result
        (flat_map label_bytes (body_at (rules_of grammar.now.rules) rule)) }
    ensures small { OnOk result (length (flat_map label_bytes (body_at (rules_of grammar.now.rules) rule)) ≤ 11 * length (body_at (rules_of grammar.now.rules) rule)) }
{
    let mut labels = grammar.walk(rule);
    while let Some(label) = labels.next(steps) {
        write_label(label, out)?;
    }
    Ok(())
}

fn write_label<K: Sink>(label: Label, out: &mut Buffer<'_, K>) -> Result<(), Failed>
    ensures puts { Puts (seen K.Sink out.old) (seen K.Sink out.new) result (label_bytes label) }
    ensures small { length (label_bytes label) ≤ 11 }
{
    match label {
        Label::Bottom => out.byte(0),
        Label::Param => out.byte(1),
        Label::Symbol(name) => write_place(2, name, out),
        Label::Call(rule) => write_place(3, rule, out),
    }
}

fn write_place<K: Sink>(tag: u8, place: usize, out: &mut Buffer<'_, K>) -> Result<(), Failed>
    ensures puts { Puts (seen K.Sink out.old) (seen K.Sink out.new) result (tag ∷ number_bytes place) }
    ensures small { length (number_bytes place) ≤ 10 }
{
    out.byte(tag)?;
    out.number(place as u64)
}

fn write_texts<K: Sink>(texts: &Dictionary<'_>, out: &mut Buffer<'_, K>) -> Result<(), Failed>
    ensures puts { Puts (seen K.Sink out.old) (seen K.Sink out.new) result (list_bytes text_bytes texts.now.different) }
    ensures small { OnOk result (length (list_bytes text_bytes texts.now.different) < 2 ^ 127 + 2 ^ 68) }
{
    out.number(texts.len())?;
    let mut place = 0;
    while let Some(text) = texts.get(place) {
        write_text(text, out)?;
        place += 1;
    }
    Ok(())
}

fn write_places<K: Sink>(dictionary: &Dictionary<'_>, out: &mut Buffer<'_, K>) -> Result<(), Failed>
    ensures puts { Puts (seen K.Sink out.old) (seen K.Sink out.new) result (list_bytes number_bytes dictionary.now.places) }
    ensures small { OnOk result (length (list_bytes number_bytes dictionary.now.places) < 2 ^ 68) }
{
    let count = dictionary.texts();
    out.number(count)?;
    for text in 0..count {
        out.number(dictionary.place(text))?;
    }
    Ok(())
}

fn write_text<K: Sink>(text: &[u8], out: &mut Buffer<'_, K>) -> Result<(), Failed>
    ensures puts { Puts (seen K.Sink out.old) (seen K.Sink out.new) result (text_bytes text.now) }
    ensures small { length text.now < 2 ^ 63 }
{
    out.number(text.len() as u64)?;
    out.bytes(text)
}
