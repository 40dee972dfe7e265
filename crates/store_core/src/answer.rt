// What a command answers, and the line that says so.
ghost use Rattle.std.specs.Prelude.{◌≡◌, ◌+◌, ◌≤◌, ◌++◌, length, codes};
ghost use Rattle.arrayvec.specs.ArrayVec.{array_vec_len};
ghost use Rattle.tree_outside.specs.Outside.{HasCause, Writes};
ghost use Rattle.tree_outside.specs.Shelf.{Keeps};
ghost use Rattle.store_core.specs.Texts.{line_of, answer_line, refusal_line};

use arrayvec::ArrayVec;
use bulk_rewrite::BulkError;
use content_models::SchemaError;
use grammar_file::FileError;
use itoa::{Buffer, Integer};
use std::alloc::AllocError;
use tree_outside::{Failed, Sink};
use tree_updates::EditError;
use xml_profile::XmlError;
use xpath_parser::QueryError;

/// What a command says that was done.
#[derive(Clone, Copy, Debug, PartialEq, Eq)]
pub enum Answer {
    /// The document has this many nodes.
    Nodes(u64),
    /// So it has, and there was no memory to settle its grammar.
    Unsettled(u64),
    /// This many bytes were written.
    Bytes(u128),
    /// A grammar with so many rules and nodes was written, in so many bytes.
    Grammar {
        rules: usize,
        size: u64,
        bytes: u128,
    },
    /// The grammar is settled, and has so many rules and nodes.
    Repaired {
        rules: usize,
        size: u64,
    },
    /// The heaviest digram has this weight; the grammar is settled, and has so many rules and nodes.
    RepairedWide {
        weight: u64,
        rules: usize,
        size: u64,
    },
    /// The query selects so many nodes.
    Selected(u64),
    /// The node was printed before the line.
    Shown,
    /// So many nodes were.
    ShownAll(u64),
    /// The schema allows all elements.
    Valid,
    /// It does not allow so many, of which the first has this number.
    Invalid {
        count: u64,
        first: u64,
    },
}

/// Why a command was not done.
#[derive(Clone, Copy, Debug, PartialEq, Eq)]
pub enum Refusal {
    NoDocument,
    ReadFault,
    NoFile,
    WriteFault,
    LongFile,
    /// The place, from 0 on, where the file's bytes go wrong.
    BadXml { at: u64 },
    BadGrammar,
    /// The file's bytes spell no schema.
    BadSchema,
    /// They spell one that passes the limits.
    LargeSchema,
    BadQuery,
    LargeQuery,
    /// The query compares texts or attribute values, and the command takes no such query.
    ValueQuery,
    NoNode,
    /// The name is no Name of XML.
    BadName,
    /// The bytes spell no fragment: no list of at least one node.
    BadFragment,
    /// The bytes spell no value.
    BadValue,
    NotAllowed,
    /// The document would have more than 2^63 - 1 nodes.
    TooMany,
    Memory,
}

impl From<AllocError> for Refusal {
    ghost use Rattle.std.specs.Prelude.{◌≡◌};
    ghost use Rattle.store_core.specs.declared.answer.Refusal.TheVariants.{Memory};

    ghost from_gives = { λ _ refusal. refusal ≡ Memory };

    fn from(_: AllocError) -> Refusal {
        Refusal::Memory
    }
}

impl From<XmlError> for Refusal {
    ghost use Rattle.store_core.specs.Errors.{RefusesDocument};

    ghost from_gives = { RefusesDocument };

    fn from(error: XmlError) -> Refusal {
        match error {
            XmlError::Bad { at } => Refusal::BadXml { at },
            XmlError::Memory => Refusal::Memory,
        }
    }
}

impl From<FileError> for Refusal {
    ghost use Rattle.store_core.specs.Errors.{RefusesFile};

    ghost from_gives = { RefusesFile };

    fn from(error: FileError) -> Refusal {
        match error {
            FileError::Bad => Refusal::BadGrammar,
            FileError::TooMany => Refusal::TooMany,
            FileError::Memory => Refusal::Memory,
        }
    }
}

impl From<SchemaError> for Refusal {
    ghost use Rattle.store_core.specs.Errors.{RefusesSchema};

    ghost from_gives = { RefusesSchema };

    fn from(error: SchemaError) -> Refusal {
        match error {
            SchemaError::Bad => Refusal::BadSchema,
            SchemaError::Large => Refusal::LargeSchema,
            SchemaError::Memory => Refusal::Memory,
        }
    }
}

impl From<EditError> for Refusal {
    ghost use Rattle.std.specs.Prelude.{◌≡◌};
    ghost use Rattle.store_core.specs.Errors.{refusal_of};

    ghost from_gives = { λ error refusal. refusal ≡ refusal_of error };

    fn from(error: EditError) -> Refusal {
        match error {
            EditError::NoNode { .. } => Refusal::NoNode,
            EditError::NotAllowed { .. } => Refusal::NotAllowed,
            EditError::TooMany => Refusal::TooMany,
            EditError::Memory => Refusal::Memory,
        }
    }
}

impl From<BulkError> for Refusal {
    ghost use Rattle.std.specs.Prelude.{◌≡◌};
    ghost use Rattle.store_core.specs.Errors.{refusal_of_all};

    ghost from_gives = { λ error refusal. refusal ≡ refusal_of_all error };

    fn from(error: BulkError) -> Refusal {
        match error {
            BulkError::NotAllowed => Refusal::NotAllowed,
            BulkError::Memory => Refusal::Memory,
        }
    }
}

impl From<QueryError> for Refusal {
    ghost use Rattle.store_core.specs.Errors.{RefusesQuery};

    ghost from_gives = { RefusesQuery };

    fn from(error: QueryError) -> Refusal {
        match error {
            QueryError::Bad => Refusal::BadQuery,
            QueryError::Large => Refusal::LargeQuery,
            QueryError::Memory => Refusal::Memory,
        }
    }
}

/// Writes the line of what a command came to, with one write of the sink.
pub(crate) fn write_line<K: Sink>(
    outcome: Result<Answer, Refusal>,
    sink: &mut K,
) -> Result<(), Failed>
    ensures content { Writes (K.got sink.old) (K.got sink.new) result (line_of outcome) }
    ensures kept { Keeps (K.kept sink.old) (K.kept sink.new) }
    ensures cause { HasCause (K.faults sink.old) (K.faults sink.new) result }
{
    match outcome {
        Ok(Answer::Nodes(count)) => write_count(b"ok nodes ", count, sink),
        Ok(Answer::Unsettled(count)) => write_unsettled(count, sink),
        Ok(Answer::Bytes(count)) => write_count(b"ok bytes ", count, sink),
        Ok(Answer::Grammar { rules, size, bytes }) => write_grammar(rules, size, bytes, sink),
        Ok(Answer::Repaired { rules, size }) => write_repaired(rules, size, sink),
        Ok(
            Answer::RepairedWide {
                weight,
                rules,
                size,
            },
        ) => write_repaired_wide(weight, rules, size, sink),
        Ok(Answer::Selected(count)) => write_count(b"ok selected ", count, sink),
        Ok(Answer::Shown) => sink.write(b"ok shown\n"),
        Ok(Answer::ShownAll(count)) => write_count(b"ok shown ", count, sink),
        Ok(Answer::Valid) => sink.write(b"ok valid\n"),
        Ok(Answer::Invalid { count, first }) => write_invalid(count, first, sink),
        Err(refusal) => write_refusal(refusal, sink),
    }
}

fn write_refusal<K: Sink>(refusal: Refusal, sink: &mut K) -> Result<(), Failed>
    ensures content { Writes (K.got sink.old) (K.got sink.new) result (refusal_line refusal) }
    ensures kept { Keeps (K.kept sink.old) (K.kept sink.new) }
    ensures cause { HasCause (K.faults sink.old) (K.faults sink.new) result }
{
    match refusal {
        Refusal::NoDocument => sink.write(b"! no-document\n"),
        Refusal::ReadFault => sink.write(b"! read-fault\n"),
        Refusal::NoFile => sink.write(b"! no-file\n"),
        Refusal::WriteFault => sink.write(b"! write-fault\n"),
        Refusal::LongFile => sink.write(b"! long-file\n"),
        Refusal::BadXml { at } => write_count(b"! bad-xml ", at, sink),
        Refusal::BadGrammar => sink.write(b"! bad-grammar\n"),
        Refusal::BadSchema => sink.write(b"! bad-schema\n"),
        Refusal::LargeSchema => sink.write(b"! large-schema\n"),
        Refusal::BadQuery => sink.write(b"! bad-query\n"),
        Refusal::LargeQuery => sink.write(b"! large-query\n"),
        Refusal::ValueQuery => sink.write(b"! value-query\n"),
        Refusal::NoNode => sink.write(b"! no-node\n"),
        Refusal::BadName => sink.write(b"! bad-name\n"),
        Refusal::BadFragment => sink.write(b"! bad-fragment\n"),
        Refusal::BadValue => sink.write(b"! bad-value\n"),
        Refusal::NotAllowed => sink.write(b"! not-allowed\n"),
        Refusal::TooMany => sink.write(b"! too-many\n"),
        Refusal::Memory => sink.write(b"! memory\n"),
    }
}

fn write_count<K: Sink, I: Integer>(words: &[u8], count: I, sink: &mut K) -> Result<(), Failed>
    requires { length words.now ≤ 40 }
    ensures content { Writes (K.got sink.old) (K.got sink.new) result (words.now ++ I.text count ++ codes "\n") }
    ensures kept { Keeps (K.kept sink.old) (K.kept sink.new) }
    ensures cause { HasCause (K.faults sink.old) (K.faults sink.new) result }
{
    let mut line: AnswerLine = ArrayVec::new();
    add(&mut line, words);
    add_number(&mut line, count);
    add(&mut line, b"\n");
    sink.write(line.as_slice())
}

fn write_unsettled<K: Sink>(count: u64, sink: &mut K) -> Result<(), Failed>
    ensures content { Writes (K.got sink.old) (K.got sink.new) result (answer_line (Answer.Unsettled count)) }
    ensures kept { Keeps (K.kept sink.old) (K.kept sink.new) }
    ensures cause { HasCause (K.faults sink.old) (K.faults sink.new) result }
{
    let mut line: AnswerLine = ArrayVec::new();
    add(&mut line, b"ok nodes ");
    add_number(&mut line, count);
    add(&mut line, b" unsettled\n");
    sink.write(line.as_slice())
}

fn write_grammar<K: Sink>(rules: usize, size: u64, bytes: u128, sink: &mut K) -> Result<(), Failed>
    ensures content { Writes (K.got sink.old) (K.got sink.new) result (answer_line (Answer.Grammar rules size bytes)) }
    ensures kept { Keeps (K.kept sink.old) (K.kept sink.new) }
    ensures cause { HasCause (K.faults sink.old) (K.faults sink.new) result }
{
    let mut line: AnswerLine = ArrayVec::new();
    add(&mut line, b"ok rules ");
    add_number(&mut line, rules);
    add(&mut line, b" size ");
    add_number(&mut line, size);
    add(&mut line, b" bytes ");
    add_number(&mut line, bytes);
    add(&mut line, b"\n");
    sink.write(line.as_slice())
}

fn write_repaired<K: Sink>(rules: usize, size: u64, sink: &mut K) -> Result<(), Failed>
    ensures content { Writes (K.got sink.old) (K.got sink.new) result (answer_line (Answer.Repaired rules size)) }
    ensures kept { Keeps (K.kept sink.old) (K.kept sink.new) }
    ensures cause { HasCause (K.faults sink.old) (K.faults sink.new) result }
{
    let mut line: AnswerLine = ArrayVec::new();
    add(&mut line, b"ok rules ");
    add_number(&mut line, rules);
    add(&mut line, b" size ");
    add_number(&mut line, size);
    add(&mut line, b"\n");
    sink.write(line.as_slice())
}

fn write_repaired_wide<K: Sink>(
    weight: u64,
    rules: usize,
    size: u64,
    sink: &mut K,
) -> Result<(), Failed>
    ensures content { Writes (K.got sink.old) (K.got sink.new) result (answer_line (Answer.RepairedWide weight rules size)) }
    ensures kept { Keeps (K.kept sink.old) (K.kept sink.new) }
    ensures cause { HasCause (K.faults sink.old) (K.faults sink.new) result }
{
    let mut line: AnswerLine = ArrayVec::new();
    add(&mut line, b"ok weight ");
    add_number(&mut line, weight);
    add(&mut line, b" rules ");
    add_number(&mut line, rules);
    add(&mut line, b" size ");
    add_number(&mut line, size);
    add(&mut line, b"\n");
    sink.write(line.as_slice())
}

fn write_invalid<K: Sink>(count: u64, first: u64, sink: &mut K) -> Result<(), Failed>
    ensures content { Writes (K.got sink.old) (K.got sink.new) result (answer_line (Answer.Invalid count first)) }
    ensures kept { Keeps (K.kept sink.old) (K.kept sink.new) }
    ensures cause { HasCause (K.faults sink.old) (K.faults sink.new) result }
{
    let mut line: AnswerLine = ArrayVec::new();
    add(&mut line, b"ok invalid ");
    add_number(&mut line, count);
    add(&mut line, b" first ");
    add_number(&mut line, first);
    add(&mut line, b"\n");
    sink.write(line.as_slice())
}

/// Room for the longest answer: its words and a line feed, and three numbers of at most 40 digits.
pub(crate) type AnswerLine = ArrayVec<u8, 160>;

/// Adds a text for which there is room.
pub(crate) fn add<const N: usize>(line: &mut ArrayVec<u8, N>, text: &[u8])
    requires { array_vec_len line.old + length text.now ≤ N }
    ensures { line.new.items ≡ line.old.items ++ text.now }
{
    let _fits = line.try_extend_from_slice(text);
}

/// Adds a number for which there is room.
pub(crate) fn add_number<I: Integer>(line: &mut AnswerLine, number: I)
    requires { array_vec_len line.old + 40 ≤ 160 }
    ensures text { line.new.items ≡ line.old.items ++ I.text number }
    ensures short { array_vec_len line.new ≤ array_vec_len line.old + 40 }
{
    let mut buffer = Buffer::new();
    add(line, buffer.format(number).as_bytes());
}
