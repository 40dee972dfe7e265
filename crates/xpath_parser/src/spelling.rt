// White space and names at the front of a query's bytes.
ghost use Rattle.std.specs.Prelude.{◌≡◌, ◌≤◌, ◌<◌, ◌-◌, length, take, true, IfSome, None, Some};
ghost use Rattle.plain_tree.specs.XmlNames.{is_space, is_name};
ghost use Rattle.xml_tokens.specs.Cutting.{back};
ghost use Rattle.xml_tokens.specs.Seen.{seen_part};
ghost use Rattle.xpath_parser.specs.Tokens.{is_other_than};
ghost use Rattle.xpath_parser.specs.Names.{is_part_byte, is_start_byte, begins_part, behind_byte, behind_part, behind_colon, behind_name};

use xml_tokens::{is_name, is_name_char, is_name_start};

fn is_space_byte(c: u8) -> bool
    ensures { result ≡ is_space c }
{
    matches!(c, b' ' | b'\t' | b'\r' | b'\n')
}

/// A byte with which a name may begin.
pub(crate) fn is_start_byte(c: u8) -> bool
    ensures { result ≡ is_start_byte c }
{
    c != b':' && (128 <= c || is_name_start(char::from(c)))
}

/// A byte with which a name may go on, the colon aside.
fn is_part_byte(c: u8) -> bool
    ensures { result ≡ is_part_byte c }
{
    c != b':' && (128 <= c || is_name_char(char::from(c)))
}

/// The bytes behind the white space at the front.
pub(crate) fn skip_space(bytes: &[u8]) -> &[u8]
    ensures left { result.now ≡ back is_space bytes.now }
    ensures not_longer { length result.now ≤ length bytes.now }
{
    let mut rest = bytes;
    while let [first, tail @ ..] = rest {
        if !is_space_byte(*first) {
            return rest;
        }
        rest = tail;
    }
    rest
}

fn skip_part_bytes(bytes: &[u8]) -> &[u8]
    ensures left { result.now ≡ back is_part_byte bytes.now }
    ensures not_longer { length result.now ≤ length bytes.now }
{
    let mut rest = bytes;
    while let [first, tail @ ..] = rest {
        if !is_part_byte(*first) {
            return rest;
        }
        rest = tail;
    }
    rest
}

/// The bytes from the first one on that is this quote.
pub(crate) fn skip_to(quote: u8, bytes: &[u8]) -> &[u8]
    ensures left { result.now ≡ back (is_other_than quote) bytes.now }
    ensures not_longer { length result.now ≤ length bytes.now }
{
    let mut rest = bytes;
    while let [first, tail @ ..] = rest {
        if *first == quote {
            return rest;
        }
        rest = tail;
    }
    rest
}

/// What follows a byte, if it stands at the front.
pub(crate) fn behind_byte(byte: u8, bytes: &[u8]) -> Option<&[u8]>
    ensures found { seen_part result ≡ behind_byte byte bytes.now }
    ensures shorter { IfSome result (λ rest. length rest.now < length bytes.now) }
{
    match bytes {
        [first, rest @ ..] if *first == byte => Some(rest),
        _ => None,
    }
}

fn begins_part(bytes: &[u8]) -> bool
    ensures { result ≡ begins_part bytes.now }
{
    match bytes {
        [first, ..] => is_start_byte(*first),
        [] => false,
    }
}

/// What follows the name without colon at the front, if one stands there.
#[tactic(auto, using(crate::proofs::NameLemmas::part_found, crate::proofs::NameLemmas::part_missing, crate::proofs::NameLemmas::part_shorter))]
fn behind_part(bytes: &[u8]) -> Option<&[u8]>
    ensures found { seen_part result ≡ behind_part bytes.now }
    ensures shorter { IfSome result (λ rest. length rest.now < length bytes.now) }
{
    let rest = skip_part_bytes(bytes);
    if is_name(&bytes[..bytes.len() - rest.len()]) {
        Some(rest)
    } else {
        None
    }
}

fn behind_colon(rest: &[u8]) -> Option<&[u8]>
    ensures found { seen_part result ≡ behind_colon rest.now (behind_byte 58 rest.now) }
    ensures not_longer { IfSome result (λ more. length more.now ≤ length rest.now) }
{
    match behind_byte(b':', rest) {
        Some(more) => {
            if begins_part(more) {
                behind_part(more)
            } else {
                Some(rest)
            }
        }
        None => Some(rest),
    }
}

/// What follows the name at the front, if one stands there; one colon may stand in it.
#[tactic(auto, unfolding(crate::specs::Names::behind_name))]
pub(crate) fn behind_name(bytes: &[u8]) -> Option<&[u8]>
    ensures found { seen_part result ≡ behind_name bytes.now }
    ensures shorter { IfSome result (λ rest. length rest.now < length bytes.now) }
{
    match behind_part(bytes) {
        Some(rest) => behind_colon(rest),
        None => None,
    }
}
