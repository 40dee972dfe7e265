// What a line asks for.
ghost use Rattle.std.specs.Prelude.{◌≡◌, ◌≢◌, ◌≤◌, ◌<◌, ◌^◌, ◌↔◌, ℕ, true, List, [], length, IfSome, MatchOption, None, Some, codes, decimal};
ghost use Rattle.std.specs.Option.{option_copied};
ghost use Rattle.std.specs.List.{position};
ghost use Rattle.store_core.specs.Acts.{Act};
ghost use Rattle.store_core.specs.CommandOf.{act_of};
ghost use Rattle.store_shell.specs.Arguments.{HasNoSpace, IsBegun, IsNamed, IsNumbered};
ghost use Rattle.store_shell.specs.Lines.{kept};
ghost use Rattle.store_shell.specs.Forms.{without_return, IsFileName, Asks, Gives, IsForm};
ghost use Rattle.store_shell.specs.Parsed.{HasFewRecords, form_of};
ghost use Rattle.store_shell.specs.Verbs.{is_blank, lone_word, verb_of};

use crate::verb::Verb;
use itoa::Buffer;
use store_core::Command;

/// How many records a document may be made with.
const MOST_RECORDS: u64 = 200_000;

/// The form of a line.
pub enum Parsed<'a> {
    Empty,
    Long,
    Bad,
    Quit,
    Command(Command<'a>),
}

/// Reads a line, which is None where it is too long.
pub fn parse(line: Option<&[u8]>) -> Parsed<'_>
    ensures form { (bytes : List ℕ) → option_copied line.entry ≡ kept bytes → IsForm bytes (form_of result) }
    ensures few { HasFewRecords (form_of result) }
{
    let Some(line) = line else {
        return Parsed::Long;
    };
    let words = without_return(line);
    if words.is_empty() {
        return Parsed::Empty;
    }
    if is_quit(words) {
        return Parsed::Quit;
    }
    match parse_command(words) {
        Some(command) => Parsed::Command(command),
        None => Parsed::Bad,
    }
}

/// One carriage return at a line's end isn't part of its words.
fn without_return(line: &[u8]) -> &[u8]
    ensures { result.now ≡ without_return line.now }
{
    match line.strip_suffix(b"\r") {
        Some(words) => words,
        None => line,
    }
}

/// Whether the words end the script.
fn is_quit(words: &[u8]) -> bool
    ensures { (result ≡ true) ↔ (words.now ≡ codes "quit") }
{
    matches!(words, b"quit")
}

/// Reads a command: its verb and, where it takes arguments, these behind one space.
fn parse_command(words: &[u8]) -> Option<Command<'_>>
    ensures { MatchOption result ((act : Act) → Asks words.now act → ⊥) (λ command. Asks words.now (act_of command)) }
{
    if let Some(command) = lone_command(words) {
        return Some(command);
    }
    let space = first_space(words)?;
    let verb = Verb::of(&words[..space])?;
    command_of(verb, &words[space + 1..])
}

/// The command with this verb that the arguments give.
fn command_of(verb: Verb, arguments: &[u8]) -> Option<Command<'_>>
    ensures { MatchOption result ((act : Act) → verb_of act ≡ Some verb → Gives arguments.now act → ⊥)
        (λ command. (verb_of (act_of command) ≡ Some verb) × Gives arguments.now (act_of command)) }
{
    match verb {
        Verb::Load => file_name(arguments).map(|name| Command::Load { name }),
        Verb::LoadGrammar => { file_name(arguments).map(|name| Command::LoadGrammar { name }) }
        Verb::Save => file_name(arguments).map(|name| Command::Save { name }),
        Verb::SaveGrammar => file_name(arguments).map(|name| Command::SaveGrammar { name }),
        Verb::Show => number(arguments).map(|number| Command::Show { number }),
        Verb::Query => query(arguments).map(|text| Command::Query { text }),
        Verb::ShowAll => query(arguments).map(|text| Command::ShowAll { text }),
        Verb::Count => query(arguments).map(|text| Command::Count { text }),
        Verb::Rename => some_numbered(arguments).map(|(number, name)| Command::Rename {
            number,
            name,
        }),
        Verb::Insert => some_numbered(arguments).map(|(number, fragment)| Command::Insert {
            number,
            fragment,
        }),
        Verb::Append => some_numbered(arguments).map(|(number, fragment)| Command::Append {
            number,
            fragment,
        }),
        Verb::Delete => number(arguments).map(|number| Command::Delete { number }),
        Verb::Value => numbered(arguments).map(|(number, value)| Command::Value { number, value }),
        Verb::Attr => attribute(arguments).map(|(number, name, value)| Command::Attr {
            number,
            name,
            value,
        }),
        Verb::Copy => number(arguments).map(|number| Command::Copy { number }),
        Verb::RenameAll => some_named(arguments).map(|(name, query)| Command::RenameAll {
            name,
            query,
        }),
        Verb::DeleteAll => query(arguments).map(|text| Command::DeleteAll { query: text }),
        Verb::Check => file_name(arguments).map(|name| Command::Check { name }),
        Verb::Generate => records(arguments).map(|records| Command::Generate { records }),
    }
}

/// The command without arguments that the words ask for.
fn lone_command(words: &[u8]) -> Option<Command<'_>>
    ensures { MatchOption result ((act : Act) → verb_of act ≡ None → words.now ≢ lone_word act)
        (λ command. (verb_of (act_of command) ≡ None) × (words.now ≡ lone_word (act_of command))) }
{
    match words {
        b"repair" => Some(Command::Repair),
        b"repair-wide" => Some(Command::RepairWide),
        _ => None,
    }
}

fn first_space(words: &[u8]) -> Option<usize>
    ensures first { result ≡ position is_blank words.now }
    ensures within { IfSome result (λ at. at < length words.now) }
{
    words.iter().position(|byte| *byte == b' ')
}

/// The name of a file: any text that isn't empty.
fn file_name(bytes: &[u8]) -> Option<&str>
    ensures { MatchOption result (IsFileName bytes.now → ⊥) (λ name. (name.now ≡ bytes.now) × IsFileName bytes.now) }
{
    if bytes.is_empty() {
        return None;
    }
    str::from_utf8(bytes).ok()
}

/// The bytes of a query: any but none.
fn query(bytes: &[u8]) -> Option<&[u8]>
    ensures { MatchOption result (bytes.now ≡ []) (λ text. (text.now ≡ bytes.now) × (bytes.now ≢ [])) }
{
    if bytes.is_empty() { None } else { Some(bytes) }
}

/// The number of a node, the name of an attribute and the bytes of its value, of which there may be none.
fn attribute(arguments: &[u8]) -> Option<(u64, &[u8], &[u8])>
    ensures { MatchOption result ((n : ℕ) (name bytes rest : List ℕ) → IsNumbered arguments.now n rest → IsNamed rest name bytes → ⊥)
        (λ read. (rest : List ℕ) × IsNumbered arguments.now read.0 rest × IsNamed rest read.1.now read.2.now) }
{
    let (number, rest) = numbered(arguments)?;
    let (name, value) = named(rest)?;
    Some((number, name, value))
}

/// A name, and what stands behind the space that ends it, if anything.
fn named(arguments: &[u8]) -> Option<(&[u8], &[u8])>
    ensures { MatchOption result ((name bytes : List ℕ) → IsNamed arguments.now name bytes → ⊥) (λ read. IsNamed arguments.now read.0.now read.1.now) }
{
    let (name, rest) = cut_word(arguments);
    if name.is_empty() {
        None
    } else {
        Some((name, rest))
    }
}

/// A name, and what stands behind the space that ends it, at least one byte.
fn some_named(arguments: &[u8]) -> Option<(&[u8], &[u8])>
    ensures { MatchOption result ((name bytes : List ℕ) → bytes ≢ [] → IsNamed arguments.now name bytes → ⊥)
        (λ read. (read.1.now ≢ []) × IsNamed arguments.now read.0.now read.1.now) }
{
    let (name, rest) = named(arguments)?;
    if rest.is_empty() {
        None
    } else {
        Some((name, rest))
    }
}

/// A number, and what stands behind the space that ends it, at least one byte.
fn some_numbered(arguments: &[u8]) -> Option<(u64, &[u8])>
    ensures { MatchOption result ((n : ℕ) (bytes : List ℕ) → bytes ≢ [] → IsNumbered arguments.now n bytes → ⊥)
        (λ read. (read.1.now ≢ []) × IsNumbered arguments.now read.0 read.1.now) }
{
    match numbered(arguments)? {
        (_, []) => None,
        read => Some(read),
    }
}

/// A number, and what stands behind the space that ends it, if anything.
fn numbered(arguments: &[u8]) -> Option<(u64, &[u8])>
    ensures { MatchOption result ((n : ℕ) (bytes : List ℕ) → IsNumbered arguments.now n bytes → ⊥) (λ read. IsNumbered arguments.now read.0 read.1.now) }
{
    let (word, rest) = cut_word(arguments);
    Some((number(word)?, rest))
}

/// What stands before the first space and behind it; without a space all, and nothing.
fn cut_word(bytes: &[u8]) -> (&[u8], &[u8])
    ensures word { HasNoSpace result.0.now }
    ensures begun { IsBegun bytes.now result.0.now result.1.now }
{
    match first_space(bytes) {
        Some(space) => (&bytes[..space], &bytes[space + 1..]),
        None => (bytes, &[]),
    }
}

/// How many records are asked for: 1 to 200,000.
fn records(bytes: &[u8]) -> Option<u64>
    ensures { MatchOption result ((n : ℕ) → 1 ≤ n → n ≤ 200000 → bytes.now ≢ decimal n) (λ n. (1 ≤ n) × (n ≤ 200000) × (bytes.now ≡ decimal n)) }
{
    let records = number(bytes)?;
    if 1 <= records && records <= MOST_RECORDS {
        Some(records)
    } else {
        None
    }
}

/// A number below 2^64 by its digits, without a leading zero.
fn number(bytes: &[u8]) -> Option<u64>
    ensures { MatchOption result ((n : ℕ) → n < 2 ^ 64 → bytes.now ≢ decimal n) (λ n. bytes.now ≡ decimal n) }
{
    let number = whole_number(bytes)?;
    let mut buffer = Buffer::new();
    // Signs and leading zeros are no part of a number's form.
    if buffer.format(number).as_bytes() == bytes {
        Some(number)
    } else {
        None
    }
}

// What `parse` reads as a number, which may have signs and leading zeros.
fn whole_number(bytes: &[u8]) -> Option<u64>
    ensures { (n : ℕ) → n < 2 ^ 64 → bytes.now ≡ decimal n → result ≡ Some n }
{
    let Ok(text) = str::from_utf8(bytes) else {
        return None;
    };
    text.parse().ok()
}
