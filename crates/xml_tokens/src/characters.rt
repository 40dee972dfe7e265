// Characters, white space and names.
ghost use Rattle.std.specs.Prelude.{◌≡◌, ◌<◌, ◌&&◌};
ghost use Rattle.std.specs.List.{list_all};
ghost use Rattle.std.specs.Str.{chars, is_utf8};
ghost use Rattle.plain_tree.specs.XmlNames.{is_within, is_space, is_char, are_chars, is_name_start, is_name_char, are_name_chars, is_name, is_xml};
ghost use Rattle.xml_tokens.specs.NameBytes.{is_name_byte, goes_name, is_low_name, is_low_start};

use std::str;

/// White space, one byte of it.
pub(crate) fn is_space_byte(c: u8) -> bool
    ensures { result ≡ is_space c }
{
    matches!(c, b' ' | b'\t' | b'\r' | b'\n')
}

fn within(low: u32, high: u32, n: u32) -> bool
    ensures { result ≡ is_within low high n }
{
    low <= n && n <= high
}

/// A character that may stand in a document.
#[tactic(auto, unfolding(plain_tree::specs::XmlNames::is_char))]
pub(crate) fn is_char(c: char) -> bool
    ensures { result ≡ is_char c }
{
    let n = c as u32;
    n == 9
        || n == 10
        || n == 13
        || within(0x20, 0xD7FF, n)
        || within(0xE000, 0xFFFD, n)
        || within(0x10000, 0x10FFFF, n)
}

/// Whether a Name may begin with this character: NameStartChar (production 4).
#[tactic(auto, unfolding(plain_tree::specs::XmlNames::is_name_start))]
pub fn is_name_start(c: char) -> bool
    ensures { result ≡ is_name_start c }
{
    let n = c as u32;
    n == 58
        || within(65, 90, n)
        || n == 95
        || within(97, 122, n)
        || within(0xC0, 0xD6, n)
        || within(0xD8, 0xF6, n)
        || within(0xF8, 0x2FF, n)
        || within(0x370, 0x37D, n)
        || within(0x37F, 0x1FFF, n)
        || within(0x200C, 0x200D, n)
        || within(0x2070, 0x218F, n)
        || within(0x2C00, 0x2FEF, n)
        || within(0x3001, 0xD7FF, n)
        || within(0xF900, 0xFDCF, n)
        || within(0xFDF0, 0xFFFD, n)
        || within(0x10000, 0xEFFFF, n)
}

/// Whether a Name may go on with this character: NameChar (production 4a).
#[tactic(auto, unfolding(plain_tree::specs::XmlNames::is_name_char))]
pub fn is_name_char(c: char) -> bool
    ensures { result ≡ is_name_char c }
{
    let n = c as u32;
    is_name_start(c)
        || n == 45
        || n == 46
        || within(48, 57, n)
        || n == 0xB7
        || within(0x300, 0x36F, n)
        || within(0x203F, 0x2040, n)
}

/// `xml` in any mixture of cases.
pub fn is_xml(bytes: &[u8]) -> bool
    ensures { result ≡ is_xml bytes.now }
{
    matches!(bytes, [b'X' | b'x', b'M' | b'm', b'L' | b'l'])
}

fn are_all_chars(text: &str) -> bool
    ensures { result ≡ list_all is_char (chars text.now) }
{
    text.chars().all(|c| is_char(c))
}

fn is_name_text(text: &str) -> bool
    ensures { result ≡ are_name_chars (chars text.now) }
{
    match text.chars().next() {
        Some(first) => is_name_start(first) && are_all_name_chars(text),
        None => false,
    }
}

fn are_chars_utf8(bytes: &[u8]) -> bool
    ensures { result ≡ are_chars bytes.now }
{
    match str::from_utf8(bytes) {
        Ok(text) => are_all_chars(text),
        Err(_) => false,
    }
}

#[tactic(auto, unfolding(plain_tree::specs::XmlNames::is_name))]
fn is_name_utf8(bytes: &[u8]) -> bool
    ensures { result ≡ is_name bytes.now }
{
    match str::from_utf8(bytes) {
        Ok(text) => is_name_text(text),
        Err(_) => false,
    }
}

// Chars of ASCII are tested byte by byte, and the rest from the first other byte on as text.
/// Whether the bytes are characters that may stand in a document.
#[tactic(auto, using(crate::proofs::Texts::chars_byte, crate::proofs::Texts::chars_none))]
pub fn are_chars(bytes: &[u8]) -> bool
    ensures { result ≡ are_chars bytes.now }
{
    let mut rest = bytes;
    while let [first, tail @ ..] = rest {
        let c = *first;
        if 128 <= c {
            return are_chars_utf8(rest);
        }
        if !is_low_char(c) {
            return false;
        }
        rest = tail;
    }
    true
}

#[tactic(auto, unfolding(plain_tree::specs::XmlNames::is_char))]
pub(crate) fn is_low_char(c: u8) -> bool
    requires { c < 128 }
    ensures { result ≡ is_char c }
{
    32 <= c || c == 9 || c == 10 || c == 13
}

/// Whether the bytes are a Name.
#[tactic(auto, using(crate::proofs::Texts::name_start_byte, crate::proofs::Texts::not_named))]
pub fn is_name(bytes: &[u8]) -> bool
    ensures { result ≡ is_name bytes.now }
{
    match bytes {
        [first, rest @ ..] => {
            let c = *first;
            if 128 <= c {
                is_name_utf8(bytes)
            } else {
                is_low_start(c) && are_name_chars(rest)
            }
        }
        [] => false,
    }
}

#[tactic(auto, using(crate::proofs::Texts::name_byte, crate::proofs::Texts::name_none))]
fn are_name_chars(bytes: &[u8]) -> bool
    ensures { result ≡ goes_name bytes.now }
{
    let mut rest = bytes;
    while let [first, tail @ ..] = rest {
        let c = *first;
        if 128 <= c {
            return are_name_chars_utf8(rest);
        }
        if !is_low_name(c) {
            return false;
        }
        rest = tail;
    }
    true
}

fn are_name_chars_utf8(bytes: &[u8]) -> bool
    ensures { result ≡ goes_name bytes.now }
{
    match str::from_utf8(bytes) {
        Ok(text) => are_all_name_chars(text),
        Err(_) => false,
    }
}

fn are_all_name_chars(text: &str) -> bool
    ensures { result ≡ list_all is_name_char (chars text.now) }
{
    text.chars().all(|c| is_name_char(c))
}

#[tactic(auto, unfolding(plain_tree::specs::XmlNames::is_name_start))]
fn is_low_start(c: u8) -> bool
    requires { c < 128 }
    ensures { result ≡ is_name_start c }
{
    c == 58 || low_within(65, 90, c) || c == 95 || low_within(97, 122, c)
}

#[tactic(auto, unfolding(plain_tree::specs::XmlNames::is_name_char))]
fn is_low_name(c: u8) -> bool
    requires { c < 128 }
    ensures { result ≡ is_name_char c }
{
    is_low_start(c) || c == 45 || c == 46 || low_within(48, 57, c)
}

/// A byte that may stand in a name.
pub(crate) fn is_name_byte(c: u8) -> bool
    ensures { result ≡ is_name_byte c }
{
    128 <= c || is_low_name(c)
}

pub(crate) fn low_within(low: u8, high: u8, n: u8) -> bool
    ensures { result ≡ is_within low high n }
{
    low <= n && n <= high
}

/// A byte of ASCII that may stand in a name, the usual letters first.
#[tactic(auto, unfolding(plain_tree::specs::XmlNames::is_name_char, plain_tree::specs::XmlNames::is_name_start))]
pub(crate) fn is_low_name_byte(c: u8) -> bool
    ensures { result ≡ is_low_name c }
{
    if low_within(97, 122, c) {
        true
    } else {
        c < 128 && is_low_name(c)
    }
}

/// A byte of ASCII that may begin a name.
pub(crate) fn is_start_byte(c: u8) -> bool
    ensures { result ≡ is_low_start c }
{
    c < 128 && is_low_start(c)
}
