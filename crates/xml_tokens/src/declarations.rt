// The declaration of a document, and its DOCTYPE.
ghost use Rattle.std.specs.Prelude.{◌≡◌, Some, None, ◌&&◌};
ghost use Rattle.std.specs.List.{list_all};
ghost use Rattle.plain_tree.specs.XmlNames.{are_chars};
ghost use Rattle.xml_tokens.specs.Seen.{seen_part, seen_parts};
ghost use Rattle.xml_tokens.specs.Declarations.{is_version, is_encoding, is_yes_or_no, is_public, are_public};
ghost use Rattle.xml_tokens.specs.References.{are_digits, is_digit};
ghost use Rattle.xml_tokens.specs.TokenAt.{item_at, declaration_end, literal_at, public_at, external_at, doctype_end, behind_version, behind_encoding, behind_standalone, behind_doctype};

use crate::characters::{are_chars, low_within};
use crate::cutting::{begins_space, behind, eq_in, name_in, quoted_in, skip_space, space_in};

/// Whether a declaration stands behind `<?xml`.
#[tactic(auto, unfolding(crate::specs::TokenAt::declaration_end))]
pub(crate) fn is_declaration(bytes: &[u8]) -> bool
    ensures { result ≡ declaration_end bytes.now }
{
    match behind_version(bytes) {
        Some(rest) => match behind_encoding(rest) {
            Some(rest) => match behind_standalone(rest) {
                Some(rest) => skip_space(rest) == b"?>".as_slice(),
                None => false,
            },
            None => false,
        },
        None => false,
    }
}

fn behind_version(bytes: &[u8]) -> Option<&[u8]>
    ensures { seen_part result ≡ behind_version bytes.now }
{
    match item_in(b"version", bytes) {
        Some((version, rest)) => if is_version(version) {
            Some(rest)
        } else {
            None
        },
        None => None,
    }
}

fn behind_encoding(bytes: &[u8]) -> Option<&[u8]>
    ensures { seen_part result ≡ behind_encoding bytes.now }
{
    match item_in(b"encoding", bytes) {
        Some((encoding, rest)) => if is_encoding(encoding) {
            Some(rest)
        } else {
            None
        },
        None => Some(bytes),
    }
}

fn behind_standalone(bytes: &[u8]) -> Option<&[u8]>
    ensures { seen_part result ≡ behind_standalone bytes.now }
{
    match item_in(b"standalone", bytes) {
        Some((word, rest)) => if is_yes_or_no(word) { Some(rest) } else { None },
        None => Some(bytes),
    }
}

// White space, the word and what its quotes hold, and the rest.
#[tactic(auto, unfolding(crate::specs::TokenAt::item_at))]
fn item_in<'a>(word: &[u8], bytes: &'a [u8]) -> Option<(&'a [u8], &'a [u8])>
    ensures { seen_parts result ≡ item_at word.now bytes.now }
{
    quoted_in(eq_in(behind(word, space_in(bytes)?)?)?)
}

fn is_version(bytes: &[u8]) -> bool
    ensures { result ≡ is_version bytes.now }
{
    match bytes {
        [a, b, digits @ ..] => *a == b'1' && *b == b'.' && are_digits(digits),
        _ => false,
    }
}

fn are_digits(bytes: &[u8]) -> bool
    ensures { result ≡ are_digits 10 bytes.now }
{
    match bytes {
        [] => false,
        _ => are_all_digits(bytes),
    }
}

fn are_all_digits(bytes: &[u8]) -> bool
    ensures { result ≡ list_all (is_digit 10) bytes.now }
{
    bytes.iter().all(|c| is_digit_byte(*c))
}

fn is_digit_byte(c: u8) -> bool
    ensures { result ≡ is_digit 10 c }
{
    48 <= c && c <= 57
}

fn is_encoding(bytes: &[u8]) -> bool
    ensures { result ≡ is_encoding bytes.now }
{
    bytes.eq_ignore_ascii_case(b"utf-8")
        || bytes.eq_ignore_ascii_case(b"us-ascii")
        || bytes.eq_ignore_ascii_case(b"ascii")
}

fn is_yes_or_no(bytes: &[u8]) -> bool
    ensures { result ≡ is_yes_or_no bytes.now }
{
    bytes == b"yes".as_slice() || bytes == b"no".as_slice()
}

/// Whether a DOCTYPE stands behind its word.
#[tactic(auto, unfolding(crate::specs::TokenAt::doctype_end))]
pub(crate) fn is_doctype(bytes: &[u8]) -> bool
    ensures { result ≡ doctype_end bytes.now }
{
    match behind_doctype(bytes) {
        Some(rest) => skip_space(rest) == b">".as_slice(),
        None => false,
    }
}

#[tactic(auto, unfolding(crate::specs::TokenAt::behind_doctype))]
fn behind_doctype(bytes: &[u8]) -> Option<&[u8]>
    ensures { seen_part result ≡ behind_doctype bytes.now }
{
    let (_, rest) = name_in(space_in(bytes)?)?;
    external_in(rest)
}

// Behind white space and an external name, if one stands there.
#[tactic(auto, unfolding(crate::specs::TokenAt::external_at))]
fn external_in(bytes: &[u8]) -> Option<&[u8]>
    ensures { seen_part result ≡ external_at bytes.now }
{
    let start = skip_space(bytes);
    match behind(b"SYSTEM", start) {
        Some(rest) => if begins_space(bytes) {
            system_in(rest)
        } else {
            None
        },
        None => match behind(b"PUBLIC", start) {
            Some(rest) => if begins_space(bytes) {
                public_in(rest)
            } else {
                None
            },
            None => Some(bytes),
        },
    }
}

#[tactic(auto, unfolding(crate::specs::TokenAt::public_at))]
fn public_in(bytes: &[u8]) -> Option<&[u8]>
    ensures { seen_part result ≡ public_at bytes.now }
{
    system_in(public_literal_in(bytes)?)
}

#[tactic(auto, unfolding(crate::specs::TokenAt::literal_at))]
fn system_in(bytes: &[u8]) -> Option<&[u8]>
    ensures { seen_part result ≡ literal_at are_chars bytes.now }
{
    let (inner, rest) = quoted_in(space_in(bytes)?)?;
    if are_chars(inner) { Some(rest) } else { None }
}

#[tactic(auto, unfolding(crate::specs::TokenAt::literal_at))]
fn public_literal_in(bytes: &[u8]) -> Option<&[u8]>
    ensures { seen_part result ≡ literal_at are_public bytes.now }
{
    let (inner, rest) = quoted_in(space_in(bytes)?)?;
    if are_public(inner) { Some(rest) } else { None }
}

fn are_public(bytes: &[u8]) -> bool
    ensures { result ≡ are_public bytes.now }
{
    bytes.iter().all(|c| is_public_byte(*c))
}

#[tactic(auto, unfolding(crate::specs::Declarations::is_public))]
fn is_public_byte(c: u8) -> bool
    ensures { result ≡ is_public c }
{
    c == 32
        || c == 13
        || c == 10
        || low_within(97, 122, c)
        || low_within(65, 90, c)
        || low_within(48, 57, c)
        || c == 33
        || low_within(35, 37, c)
        || low_within(39, 47, c)
        || c == 58
        || c == 59
        || c == 61
        || c == 63
        || c == 64
        || c == 95
}
