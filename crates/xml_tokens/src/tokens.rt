// The token that a text spells, read once.
ghost use Rattle.std.specs.Prelude.{◌≡◌, ◌<◌, ◌&&◌, Some, None, IfOk, IfSome, IfNone, ◌∷◌, []};
ghost use Rattle.std.specs.Str.{chars};
ghost use Rattle.xml_tokens.specs.Seen.{seen_part};
ghost use Rattle.plain_tree.specs.Parts.{has_part, begins_with};
ghost use Rattle.xml_tokens.specs.Tokens.{Token, IsToken};
ghost use Rattle.xml_tokens.specs.TokenAt.{close_at, start_at, end_at, comment_at, section_at, data_at, instruction_at, bang_at, question_at, markup_at, reference_at, character_at, one_char, char_at, token_at};
ghost use Rattle.xml_tokens.specs.SeenTokens.{seen_token, token_of, attributes_of};

use crate::attributes::{Attribute, are_distinct, attributes_in};
use crate::characters::{are_chars, is_char, is_low_char, is_space_byte, is_xml};
use crate::cutting::{before, begins_space, behind, name_in, skip_space};
use crate::declarations::{is_declaration, is_doctype};
use crate::references::referred;
use std::alloc::{AllocError, Global};
use std::str;

/// A token, with the parts of the text that spells it.
#[derive(Drop)]
pub enum Found<'a> {
    /// A character that stands for itself.
    Character(char),
    /// The character that a reference names.
    Reference(char),
    /// The value of a CDATA section.
    Section(&'a [u8]),
    /// The name and the attributes of a start tag.
    Start(&'a [u8], Vec<Attribute<'a>>),
    /// And of an empty-element tag.
    Empty(&'a [u8], Vec<Attribute<'a>>),
    /// The name of an end tag.
    End(&'a [u8]),
    /// The value of a comment.
    Comment(&'a [u8]),
    /// The target and the data of a processing instruction.
    Instruction(&'a [u8], &'a [u8]),
    /// The XML declaration.
    Declaration,
    /// A document type declaration without an internal subset.
    Doctype,
}

/// The token that all the bytes of the text spell; None where they spell none. Line ends have to be done before. It is
/// refused only for want of memory.
pub fn read_token(alloc: Global, text: &[u8]) -> Result<Option<Found<'_>>, AllocError>
    ensures found { IfOk result (λ o. IfSome o (λ f. IsToken (token_of f) text.now)) }
    ensures none { IfOk result (λ o. IfNone o ((t : Token) → IsToken t text.now → ⊥)) }
{
    token_in(alloc, text)
}

#[tactic(auto, unfolding(crate::specs::TokenAt::token_at))]
fn token_in(alloc: Global, text: &[u8]) -> Result<Option<Found<'_>>, AllocError>
    ensures { IfOk result (λ o. seen_token o ≡ token_at text.now) }
{
    match text {
        [b'<', rest @ ..] => markup_in(alloc, rest),
        [b'&', rest @ ..] => Ok(reference_in(rest)),
        [] => Ok(None),
        _ => Ok(character_in(text)),
    }
}

#[tactic(auto, unfolding(crate::specs::TokenAt::markup_at))]
fn markup_in(alloc: Global, bytes: &[u8]) -> Result<Option<Found<'_>>, AllocError>
    ensures { IfOk result (λ o. seen_token o ≡ markup_at bytes.now) }
{
    match bytes {
        [b'/', rest @ ..] => Ok(end_in(rest)),
        [b'?', rest @ ..] => Ok(question_in(rest)),
        [b'!', rest @ ..] => Ok(bang_in(rest)),
        [] => Ok(None),
        _ => start_in(alloc, bytes),
    }
}

#[tactic(auto, unfolding(crate::specs::TokenAt::start_at))]
fn start_in(alloc: Global, bytes: &[u8]) -> Result<Option<Found<'_>>, AllocError>
    ensures { IfOk result (λ o. seen_token o ≡ start_at bytes.now) }
{
    match name_in(bytes) {
        Some((name, rest)) => match attributes_in(alloc, rest)? {
            Some((attributes, close)) => close_in(alloc, name, attributes, close),
            None => Ok(None),
        },
        None => Ok(None),
    }
}

fn close_in<'a>(
    alloc: Global,
    name: &'a [u8],
    attributes: Vec<Attribute<'a>>,
    close: &[u8],
) -> Result<Option<Found<'a>>, AllocError>
    ensures { IfOk result (λ o. seen_token o ≡ close_at name.now (attributes_of attributes.entry.items) close.now) }
{
    if !are_distinct(alloc, attributes.as_slice())? {
        return Ok(None);
    }
    if close == b">".as_slice() {
        Ok(Some(Found::Start(name, attributes)))
    } else if close == b"/>".as_slice() {
        Ok(Some(Found::Empty(name, attributes)))
    } else {
        Ok(None)
    }
}

#[tactic(auto, unfolding(crate::specs::TokenAt::end_at))]
fn end_in(bytes: &[u8]) -> Option<Found<'_>>
    ensures { seen_token result ≡ end_at bytes.now }
{
    let (name, rest) = name_in(bytes)?;
    if skip_space(rest) == b">".as_slice() {
        Some(Found::End(name))
    } else {
        None
    }
}

#[tactic(auto, unfolding(crate::specs::TokenAt::bang_at))]
fn bang_in(bytes: &[u8]) -> Option<Found<'_>>
    ensures { seen_token result ≡ bang_at bytes.now }
{
    match behind(b"--", bytes) {
        Some(rest) => comment_in(rest),
        None => match behind(b"[CDATA[", bytes) {
            Some(rest) => section_in(rest),
            None => match behind(b"DOCTYPE", bytes) {
                Some(rest) => if is_doctype(rest) {
                    Some(Found::Doctype)
                } else {
                    None
                },
                None => None,
            },
        },
    }
}

#[tactic(auto, unfolding(crate::specs::TokenAt::comment_at))]
fn comment_in(bytes: &[u8]) -> Option<Found<'_>>
    ensures { seen_token result ≡ comment_at bytes.now }
{
    let dashed = before(b"->", bytes)?;
    let value = before(b"-", dashed)?;
    if are_chars(value) && !has_pair(b'-', b'-', dashed) {
        Some(Found::Comment(value))
    } else {
        None
    }
}

#[tactic(auto, unfolding(crate::specs::TokenAt::section_at))]
fn section_in(bytes: &[u8]) -> Option<Found<'_>>
    ensures { seen_token result ≡ section_at bytes.now }
{
    let value = before(b"]]>", bytes)?;
    if are_chars(value) && !has_section_end(value) {
        Some(Found::Section(value))
    } else {
        None
    }
}

fn has_section_end(bytes: &[u8]) -> bool
    ensures { result ≡ has_part (93 ∷ 93 ∷ 62 ∷ []) bytes.now }
{
    let mut rest = bytes;
    while let [_, tail @ ..] = rest {
        if begins_section_end(rest) {
            return true;
        }
        rest = tail;
    }
    false
}

fn begins_section_end(bytes: &[u8]) -> bool
    ensures { result ≡ begins_with (93 ∷ 93 ∷ 62 ∷ []) bytes.now }
{
    match bytes {
        [a, b, c, ..] => *a == b']' && *b == b']' && *c == b'>',
        _ => false,
    }
}

#[tactic(auto, unfolding(crate::specs::TokenAt::question_at))]
fn question_in(bytes: &[u8]) -> Option<Found<'_>>
    ensures { seen_token result ≡ question_at bytes.now }
{
    match behind(b"xml", bytes) {
        Some(rest) => {
            if begins_space(rest) {
                if is_declaration(rest) {
                    Some(Found::Declaration)
                } else {
                    None
                }
            } else {
                instruction_in(bytes)
            }
        }
        None => instruction_in(bytes),
    }
}

#[tactic(auto, unfolding(crate::specs::TokenAt::instruction_at))]
fn instruction_in(bytes: &[u8]) -> Option<Found<'_>>
    ensures { seen_token result ≡ instruction_at bytes.now }
{
    let (target, rest) = name_in(before(b"?>", bytes)?)?;
    let value = data_in(rest)?;
    if !is_xml(target) && are_chars(value) && !has_instruction_end(value) {
        Some(Found::Instruction(target, value))
    } else {
        None
    }
}

fn data_in(bytes: &[u8]) -> Option<&[u8]>
    ensures { seen_part result ≡ data_at bytes.now }
{
    match bytes {
        [first, rest @ ..] => if is_space_byte(*first) {
            Some(skip_space(rest))
        } else {
            None
        },
        [] => Some(bytes),
    }
}

fn has_instruction_end(bytes: &[u8]) -> bool
    ensures { result ≡ has_part (63 ∷ 62 ∷ []) bytes.now }
{
    has_pair(b'?', b'>', bytes)
}

fn has_pair(a: u8, b: u8, bytes: &[u8]) -> bool
    ensures { result ≡ has_part (a ∷ b ∷ []) bytes.now }
{
    let mut rest = bytes;
    while let [_, tail @ ..] = rest {
        if begins_pair(a, b, rest) {
            return true;
        }
        rest = tail;
    }
    false
}

fn begins_pair(a: u8, b: u8, bytes: &[u8]) -> bool
    ensures { result ≡ begins_with (a ∷ b ∷ []) bytes.now }
{
    match bytes {
        [x, y, ..] => *x == a && *y == b,
        _ => false,
    }
}

#[tactic(auto, unfolding(crate::specs::TokenAt::reference_at))]
fn reference_in(bytes: &[u8]) -> Option<Found<'_>>
    ensures { seen_token result ≡ reference_at bytes.now }
{
    let inner = before(b";", bytes)?;
    let c = referred(inner)?;
    Some(Found::Reference(c))
}

fn character_in(bytes: &[u8]) -> Option<Found<'_>>
    ensures { seen_token result ≡ character_at bytes.now }
{
    match read_char(bytes) {
        Some(c) => Some(Found::Character(c)),
        None => None,
    }
}

/// The character that may stand in a document that the bytes are; None where they are no character, or more than one.
pub fn read_char(bytes: &[u8]) -> Option<char>
    ensures { result ≡ char_at bytes.now }
{
    match bytes {
        [first] => byte_char(*first, bytes),
        _ => other_char(bytes),
    }
}

fn byte_char(c: u8, bytes: &[u8]) -> Option<char>
    requires { bytes.now ≡ c ∷ [] }
    ensures { result ≡ char_at bytes.now }
{
    if c < 128 {
        low_char(c)
    } else {
        other_char(bytes)
    }
}

fn low_char(c: u8) -> Option<char>
    requires { c < 128 }
    ensures { result ≡ one_char (c ∷ []) }
{
    if is_low_char(c) {
        Some(c as char)
    } else {
        None
    }
}

#[tactic(auto, unfolding(crate::specs::TokenAt::char_at))]
fn other_char(bytes: &[u8]) -> Option<char>
    ensures { result ≡ char_at bytes.now }
{
    match str::from_utf8(bytes) {
        Ok(text) => text_char(text),
        Err(_) => None,
    }
}

fn text_char(text: &str) -> Option<char>
    ensures { result ≡ one_char (chars text.now) }
{
    match text.chars().next() {
        Some(c) => {
            if c.len_utf8() != text.len() {
                None
            } else if is_char(c) {
                Some(c)
            } else {
                None
            }
        }
        None => None,
    }
}
