// References.
ghost use Rattle.std.specs.Prelude.{◌≡◌, ◌≤◌, ◌<◌, ◌+◌, ◌*◌, ◌⊎◌, length, IfSome};
ghost use Rattle.std.specs.Char.{digit_value};
ghost use Rattle.xml_tokens.specs.Cutting.{front, back, is_other};
ghost use Rattle.xml_tokens.specs.References.{referred, char_ref, entity, numbered, char_of};
ghost use Rattle.xml_tokens.specs.TokenAt.{leading_reference};
ghost use Rattle.xml_tokens.specs.Seen.{seen_char};

use crate::characters::is_char;
use crate::cutting::skip_to;

/// The character of the reference at the front, behind its `&`, and what follows its `;`.
pub(crate) fn leading_reference(bytes: &[u8]) -> Option<(char, &[u8])>
    ensures found { seen_char result ≡ leading_reference bytes.now }
    ensures shorter { IfSome result (λ p. length p.1.now < length bytes.now) }
{
    let left = skip_to(b';', bytes);
    match left {
        [_, after @ ..] => match referred(&bytes[..bytes.len() - left.len()]) {
            Some(c) => Some((c, after)),
            None => None,
        },
        [] => None,
    }
}

#[tactic(auto, unfolding(crate::specs::References::referred))]
/// The character that stands between `&` and `;`.
pub(crate) fn referred(inner: &[u8]) -> Option<char>
    ensures { result ≡ referred inner.now }
{
    match inner {
        [b'#', rest @ ..] => char_ref(rest),
        [] => None,
        _ => entity(inner),
    }
}

fn entity(name: &[u8]) -> Option<char>
    ensures { result ≡ entity name.now }
{
    if name == b"lt".as_slice() {
        Some('<')
    } else if name == b"gt".as_slice() {
        Some('>')
    } else if name == b"amp".as_slice() {
        Some('&')
    } else if name == b"apos".as_slice() {
        Some('\'')
    } else if name == b"quot".as_slice() {
        Some('"')
    } else {
        None
    }
}

fn char_ref(bytes: &[u8]) -> Option<char>
    ensures { result ≡ char_ref bytes.now }
{
    match bytes {
        [b'x', digits @ ..] => numbered(16, digits),
        [] => None,
        _ => numbered(10, bytes),
    }
}

// A number that is too large for a character stays too large.
fn numbered(base: u32, digits: &[u8]) -> Option<char>
    requires least { 1 ≤ base }
    requires most { base ≤ 16 }
    ensures { result ≡ numbered base digits.now }
{
    if digits.is_empty() {
        return None;
    }
    let mut n: u32 = 0;
    let mut rest = digits;
    while let [first, tail @ ..] = rest {
        let d = digit_of(*first);
        if base <= d {
            return None;
        }
        n = next_number(n, base, d);
        rest = tail;
    }
    char_of(n)
}

fn next_number(n: u32, base: u32, d: u32) -> u32
    requires base { base ≤ 16 }
    requires digit { d < base }
    ensures { (result ≡ n * base + d) ⊎ ((0x10FFFF < n) × (result ≡ n)) }
{
    if n <= 0x10FFFF { n * base + d } else { n }
}

fn char_of(n: u32) -> Option<char>
    ensures { result ≡ char_of n }
{
    match char::from_u32(n) {
        Some(c) => { if is_char(c) { Some(c) } else { None } }
        None => None,
    }
}

fn digit_of(c: u8) -> u32
    ensures { result ≡ digit_value c }
{
    if c < 48 {
        36
    } else if c < 58 {
        (c - 48) as u32
    } else if c < 65 {
        36
    } else if c < 91 {
        (c - 55) as u32
    } else if c < 97 {
        36
    } else if c < 123 {
        (c - 87) as u32
    } else {
        36
    }
}
