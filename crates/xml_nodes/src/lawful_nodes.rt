// Which names and values a node may have.
ghost use Rattle.std.specs.Prelude.{◌≡◌, ◌↔◌, IsTrue, ◌++◌, codes, false};
ghost use Rattle.plain_tree.specs.Lawful.{IsLawful, IsLawfulName, IsLawfulValue, IsCommentValue, IsInstructionValue, has_no_return};
ghost use Rattle.plain_tree.specs.Parts.{has_part, begins_with};
ghost use Rattle.plain_tree.specs.XmlNames.{is_target, begins_space};

use plain_tree::Kind;
use xml_tokens::{are_chars, is_name, is_xml};

/// Whether a node of this kind may have this name and this value.
pub fn lawful(kind: Kind, name: &[u8], value: &[u8]) -> bool
    ensures { IsTrue result ↔ IsLawful kind name.now value.now }
{
    is_lawful_name(kind, name) && is_lawful_value(kind, value)
}

/// Whether a node of this kind may have this name.
pub fn is_lawful_name(kind: Kind, name: &[u8]) -> bool
    ensures { IsTrue result ↔ IsLawfulName kind name.now }
{
    match kind {
        Kind::Element | Kind::Attribute => is_name(name),
        Kind::Instruction => is_target(name),
        Kind::Document | Kind::Text | Kind::Comment => name.is_empty(),
    }
}

fn is_lawful_value(kind: Kind, value: &[u8]) -> bool
    ensures { IsTrue result ↔ IsLawfulValue kind value.now }
{
    match kind {
        Kind::Document | Kind::Element => value.is_empty(),
        Kind::Attribute => are_chars(value),
        Kind::Text => are_chars(value) && !value.is_empty(),
        Kind::Comment => is_comment_value(value),
        Kind::Instruction => is_instruction_value(value),
    }
}

fn is_target(name: &[u8]) -> bool
    ensures { result ≡ is_target name.now }
{
    is_name(name) && !is_xml(name)
}

fn is_comment_value(value: &[u8]) -> bool
    ensures { IsTrue result ↔ IsCommentValue value.now }
{
    are_chars(value) && !has_dashes(value) && has_no_return(value)
}

fn is_instruction_value(value: &[u8]) -> bool
    ensures { IsTrue result ↔ IsInstructionValue value.now }
{
    are_chars(value) && !has_end(value) && has_no_return(value) && !begins_space(value)
}

fn has_no_return(value: &[u8]) -> bool
    ensures { result ≡ has_no_return value.now }
{
    value.iter().all(|c| *c != b'\r')
}

fn begins_space(value: &[u8]) -> bool
    ensures { result ≡ begins_space value.now }
{
    matches!(value, [b' ' | b'\t' | b'\r' | b'\n', ..])
}

// Two hyphens, or one at the end.
fn has_dashes(value: &[u8]) -> bool
    ensures { result ≡ has_part (codes "--") (value.now ++ codes "-") }
{
    let mut rest = value;
    while let [first, tail @ ..] = rest {
        if *first == b'-' && matches!(tail, [] | [b'-', ..]) {
            return true;
        }
        rest = tail;
    }
    false
}

// `?>`
fn has_end(value: &[u8]) -> bool
    ensures { result ≡ has_part (codes "?>") value.now }
{
    let mut rest = value;
    while let [first, tail @ ..] = rest {
        if *first == b'?' && matches!(tail, [b'>', ..]) {
            return true;
        }
        rest = tail;
    }
    false
}
