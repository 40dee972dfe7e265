// Slices, cut at white space, words, names and quotes.
ghost use Rattle.std.specs.Prelude.{◌≡◌, ◌≤◌, ◌-◌, length, take, true};
ghost use Rattle.plain_tree.specs.XmlNames.{is_space, begins_space};
ghost use Rattle.xml_tokens.specs.NameBytes.{is_name_byte, is_low_name, begins_low, begins_start};
ghost use Rattle.xml_tokens.specs.Cutting.{front, back, behind, before, is_other};
ghost use Rattle.xml_tokens.specs.Seen.{seen_part, seen_parts};
ghost use Rattle.xml_tokens.specs.Attributes.{is_quote};
ghost use Rattle.xml_tokens.specs.TokenAt.{space_at, eq_at, name_at, quoted_at, closed_at};

use crate::characters::{is_low_name_byte, is_name, is_name_byte, is_space_byte, is_start_byte};
use memchr::memchr;

/// The bytes behind the white space at the front.
pub(crate) fn skip_space(bytes: &[u8]) -> &[u8]
    ensures { result.now ≡ back is_space bytes.now }
{
    let mut rest = bytes;
    while let [first, tail @ ..] = rest {
        if !is_space_byte(*first) {
            return rest;
        }
        rest = tail;
    }
    rest
}

/// Whether white space stands at the front.
pub(crate) fn begins_space(bytes: &[u8]) -> bool
    ensures { result ≡ begins_space bytes.now }
{
    match bytes {
        [first, ..] => is_space_byte(*first),
        [] => false,
    }
}

/// The bytes behind white space that has to be there.
pub(crate) fn space_in(bytes: &[u8]) -> Option<&[u8]>
    ensures { seen_part result ≡ space_at bytes.now }
{
    if begins_space(bytes) {
        Some(skip_space(bytes))
    } else {
        None
    }
}

/// What stands behind the word at the front.
pub(crate) fn behind<'a>(word: &[u8], bytes: &'a [u8]) -> Option<&'a [u8]>
    ensures { seen_part result ≡ behind word.now bytes.now }
{
    bytes.strip_prefix(word)
}

/// What stands before the word at the end.
pub(crate) fn before<'a>(word: &[u8], bytes: &'a [u8]) -> Option<&'a [u8]>
    ensures { seen_part result ≡ before word.now bytes.now }
{
    bytes.strip_suffix(word)
}

/// The bytes behind an equals sign, with white space around it.
pub(crate) fn eq_in(bytes: &[u8]) -> Option<&[u8]>
    ensures { seen_part result ≡ eq_at bytes.now }
{
    match skip_space(bytes) {
        [b'=', rest @ ..] => Some(skip_space(rest)),
        _ => None,
    }
}

/// The name at the front, and what follows it. A name of ASCII is gone over once.
pub(crate) fn name_in(bytes: &[u8]) -> Option<(&[u8], &[u8])>
    ensures { seen_parts result ≡ name_at bytes.now }
{
    let rest = skip_low_name(bytes);
    if begins_low(rest) {
        low_name_in(bytes, rest)
    } else {
        any_name_in(bytes)
    }
}

// A name of ASCII, in front of the rest.
fn low_name_in<'a>(bytes: &'a [u8], rest: &'a [u8]) -> Option<(&'a [u8], &'a [u8])>
    requires left { rest.now ≡ back is_low_name bytes.now }
    requires ended { begins_low rest.now ≡ true }
    requires not_longer { length rest.now ≤ length bytes.now }
    ensures { seen_parts result ≡ name_at bytes.now }
{
    let name = &bytes[..bytes.len() - rest.len()];
    if begins_start(name) {
        Some((name, rest))
    } else {
        None
    }
}

fn begins_low(bytes: &[u8]) -> bool
    ensures { result ≡ begins_low bytes.now }
{
    match bytes {
        [first, ..] => *first < 128,
        [] => true,
    }
}

fn begins_start(bytes: &[u8]) -> bool
    ensures { result ≡ begins_start bytes.now }
{
    match bytes {
        [first, ..] => is_start_byte(*first),
        [] => false,
    }
}

fn skip_low_name(bytes: &[u8]) -> &[u8]
    ensures left { result.now ≡ back is_low_name bytes.now }
    ensures not_longer { length result.now ≤ length bytes.now }
{
    let mut rest = bytes;
    while let [first, tail @ ..] = rest {
        if !is_low_name_byte(*first) {
            return rest;
        }
        rest = tail;
    }
    rest
}

fn any_name_in(bytes: &[u8]) -> Option<(&[u8], &[u8])>
    ensures { seen_parts result ≡ name_at bytes.now }
{
    let rest = skip_name(bytes);
    let name = &bytes[..bytes.len() - rest.len()];
    if is_name(name) {
        Some((name, rest))
    } else {
        None
    }
}

fn skip_name(bytes: &[u8]) -> &[u8]
    ensures left { result.now ≡ back is_name_byte bytes.now }
    ensures not_longer { length result.now ≤ length bytes.now }
{
    let mut rest = bytes;
    while let [first, tail @ ..] = rest {
        if !is_name_byte(*first) {
            return rest;
        }
        rest = tail;
    }
    rest
}

/// What stands in quotes at the front, and what follows them.
pub(crate) fn quoted_in(bytes: &[u8]) -> Option<(&[u8], &[u8])>
    ensures { seen_parts result ≡ quoted_at bytes.now }
{
    match bytes {
        [quote, rest @ ..] => {
            if is_quote_byte(*quote) {
                closed_in(rest, skip_to(*quote, rest))
            } else {
                None
            }
        }
        [] => None,
    }
}

fn closed_in<'a>(bytes: &'a [u8], left: &'a [u8]) -> Option<(&'a [u8], &'a [u8])>
    requires { length left.now ≤ length bytes.now }
    ensures { seen_parts result ≡ closed_at (take (length bytes.now - length left.now) bytes.now) left.now }
{
    match left {
        [_, after @ ..] => Some((&bytes[..bytes.len() - left.len()], after)),
        [] => None,
    }
}

fn is_quote_byte(c: u8) -> bool
    ensures { result ≡ is_quote c }
{
    c == b'"' || c == b'\''
}

/// The bytes from the first that is the stop on; none where there is no such byte.
pub fn skip_to(stop: u8, bytes: &[u8]) -> &[u8]
    ensures left { result.now ≡ back (is_other stop) bytes.now }
    ensures not_longer { length result.now ≤ length bytes.now }
{
    match memchr(stop, bytes) {
        Some(n) => &bytes[n..],
        None => &[],
    }
}
