// The token at the front of bytes.
ghost use Rattle.std.specs.Prelude.{◌≡◌, ◌≤◌, ◌<◌, length, IfSome};
ghost use Rattle.xml_tokens.specs.Cutting.{back};
ghost use Rattle.xml_tokens.specs.Seen.{seen_part, seen_parts};
ghost use Rattle.xml_tokens.specs.NameBytes.{is_name_byte};
ghost use Rattle.content_models.specs.Seen.{seen};
ghost use Rattle.content_models.specs.Tokens.{behind_equals, is_blank, name_at, sign_at, token_at};

use crate::token::Token;
use xml_tokens::{is_name, is_name_char};

// A token, and what follows it.
type Found<'a> = Option<(Token<'a>, &'a [u8])>;

fn is_blank(c: u8) -> bool
    ensures { result ≡ is_blank c }
{
    matches!(c, b' ' | b'\t' | b'\r')
}

// A byte that may stand in a name; each byte of a character beyond ASCII counts, since such characters stand in names alone.
fn is_name_byte(c: u8) -> bool
    ensures { result ≡ is_name_byte c }
{
    128 <= c || is_name_char(char::from(c))
}

/// The bytes behind the blanks at the front.
pub(crate) fn skip_blanks(bytes: &[u8]) -> &[u8]
    ensures left { result.now ≡ back is_blank bytes.now }
    ensures not_longer { length result.now ≤ length bytes.now }
{
    let mut rest = bytes;
    while let [first, tail @ ..] = rest {
        if !is_blank(*first) {
            return rest;
        }
        rest = tail;
    }
    rest
}

fn skip_name_bytes(bytes: &[u8]) -> &[u8]
    ensures left { result.now ≡ back is_name_byte bytes.now }
    ensures not_longer { length result.now ≤ length bytes.now }
{
    let mut rest = bytes;
    while let [first, tail @ ..] = rest {
        if !is_name_byte(*first) {
            return rest;
        }
        rest = tail;
    }
    rest
}

/// The name at the front, and what follows it.
#[tactic(auto, using(crate::proofs::NameLemmas::name_found, crate::proofs::NameLemmas::name_missing, crate::proofs::NameLemmas::name_shorter))]
pub(crate) fn name_at(bytes: &[u8]) -> Option<(&[u8], &[u8])>
    ensures found { seen_parts result ≡ name_at bytes.now }
    ensures shorter { IfSome result (λ p. length p.1.now < length bytes.now) }
{
    let rest = skip_name_bytes(bytes);
    let name = &bytes[..bytes.len() - rest.len()];
    if is_name(name) {
        Some((name, rest))
    } else {
        None
    }
}

/// What follows an equals sign and the blanks before it, if it stands at the front.
pub(crate) fn behind_equals(bytes: &[u8]) -> Option<&[u8]>
    ensures found { seen_part result ≡ behind_equals (back is_blank bytes.now) }
{
    match skip_blanks(bytes) {
        [b'=', rest @ ..] => Some(rest),
        _ => None,
    }
}

fn sign_at(first: u8, rest: &[u8]) -> Found<'_>
    ensures found { seen result ≡ sign_at first rest.now }
    ensures shorter { IfSome result (λ p. length p.1.now ≤ length rest.now) }
{
    match first {
        b'(' => Some((Token::Open, rest)),
        b')' => Some((Token::Close, rest)),
        b',' => Some((Token::Comma, rest)),
        b'|' => Some((Token::Bar, rest)),
        b'?' => Some((Token::Question, rest)),
        b'*' => Some((Token::Star, rest)),
        b'+' => Some((Token::Plus, rest)),
        _ => None,
    }
}

/// The token at the front, and what follows it.
#[tactic(auto, unfolding(crate::specs::Tokens::token_at))]
pub(crate) fn next_token(bytes: &[u8]) -> Found<'_>
    ensures found { seen result ≡ token_at bytes.now }
    ensures shorter { IfSome result (λ p. length p.1.now < length bytes.now) }
{
    match bytes {
        [] => None,
        [first, tail @ ..] => {
            if is_name_byte(*first) {
                let (name, rest) = name_at(bytes)?;
                Some((Token::Word(name), rest))
            } else {
                sign_at(*first, tail)
            }
        }
    }
}
